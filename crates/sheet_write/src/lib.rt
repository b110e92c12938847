// The chunks of a sheet, but for BODY, in its order. Each function stores at a place and answers the place past its bytes; what
// does not fit is passed over, so over an empty slice they measure.
#![tactic(auto)]

mod group;

ghost use Rattle.std.specs.Prelude.{◌≡◌, [], ◌∷◌, ◌+◌, ◌-◌, ◌^◌, ◌≤◌, ◌<◌, length, take, drop, Ok};
ghost use Rattle.laws.specs.Put.{Put};
ghost use Rattle.chunk.specs.ChunkBytes.{chunk_bytes};
ghost use Rattle.form.specs.Names.{chan};
ghost use Rattle.sheet.specs.Judge.{judged};
ghost use Rattle.sheet.specs.Read.{read_sheet};
ghost use Rattle.sheet.specs.Record.{records};
ghost use Rattle.sheet_write.specs.RecordChunks.{record_chunk, record_chunks};
ghost use Rattle.sheet_write.specs.VoiceChunks.{text_name, voice_chunks};

use chunk::put_chunk;
use group::put_group;
use sheet::{Record, record_at};

// The names of text chunks by their keys.
const TEXT_NAMES: [u32; 6] = [
    0,
    form::NAME,
    form::AUTH,
    form::ANNO,
    form::COPYRIGHT,
    form::CHRS,
];

fn text_name(key: u8) -> u32
    ensures { result ≡ text_name key }
{
    TEXT_NAMES.get(key as usize).copied().unwrap_or(0)
}

// CHAN, whose value stands in one byte on the sheet.
fn put_channel(value: u8, d: &mut [u8], at: usize) -> usize
    requires { at < 2 ^ 60 }
    ensures { Put d.old at (chunk_bytes chan (0 ∷ 0 ∷ 0 ∷ value ∷ [])) d.new result }
{
    put_chunk(form::CHAN, &[0, 0, 0, value], d, at)
}

// The chunk that a record opens: its members begin where its body ends.
fn put_record_chunk(sheet: &[u8], opener: Record, d: &mut [u8], at: usize) -> usize
    requires { (opener.start ≤ opener.next) × (opener.next ≤ length sheet.now) × (length sheet.now < 2 ^ 34) × (at < 2 ^ 60) × ((opener.kind ≡ 2 → opener.next ≡ opener.start + 1)) × ((opener.kind ≡ 10 → opener.next ≡ opener.start + 1)) }
    ensures { Put d.old at (record_chunk opener.kind (take (opener.next - opener.start) (drop opener.start sheet.now)) (records (drop opener.next sheet.now))) d.new result }
{
    let Record { kind, start, next } = opener;
    match kind {
        1 => put_chunk(form::VHDR, &sheet[start..next], d, at),
        2 => put_channel(sheet[start], d, at),
        3 => put_chunk(form::PAN, &sheet[start..next], d, at),
        4 => put_group(sheet, next, form::ATAK, 6, 6, 0, d, at),
        5 => put_group(sheet, next, form::RLSE, 6, 6, 0, d, at),
        7 => put_group(sheet, next, form::SEQN, 8, 8, 0, d, at),
        9 => put_chunk(form::FADE, &sheet[start..next], d, at),
        10 => put_group(sheet, next, text_name(sheet[start]), 11, 1, 1, d, at),
        _ => at,
    }
}

// The chunks of all records.
fn put_records(sheet: &[u8], d: &mut [u8], at: usize) -> usize
    requires { (length sheet.now < 2 ^ 34) × (at + length (record_chunks (records sheet.now)) < 2 ^ 60) }
    ensures { Put d.old at (record_chunks (records sheet.now)) d.new result }
{
    let mut p = 0;
    let mut o = at;
    while let Some(record) = record_at(sheet, p).unwrap_or(None) {
        o = put_record_chunk(sheet, record, d, o);
        p = record.next;
    }
    o
}

// The chunks of a sound sheet from a place on.
pub fn put_chunks(sheet: &[u8], d: &mut [u8], at: usize) -> usize
    requires { (judged sheet.now ≡ Ok tt) × (length sheet.now < 2 ^ 34) × (at < 2 ^ 34) }
    ensures { Put d.old at (voice_chunks (read_sheet sheet.now)) d.new result }
{
    put_records(sheet, d, at)
}

// How long they are.
pub fn chunks_length(sheet: &[u8]) -> usize
    requires { (judged sheet.now ≡ Ok tt) × (length sheet.now < 2 ^ 34) }
    ensures { (result ≡ length (voice_chunks (read_sheet sheet.now))) × (result < 2 ^ 38) }
{
    let mut nowhere = [0u8; 0];
    put_chunks(sheet, &mut nowhere, 0)
}
