// How long the file is.
ghost use Rattle.std.specs.Prelude.{◌≡◌, true, length};
ghost use Rattle.refusal.specs.Outcome.{length_of};
ghost use Rattle.header.specs.Compression.{known_compression};
ghost use Rattle.std.specs.Prelude.{Ok};
ghost use Rattle.sheet.specs.Judge.{judged};
ghost use Rattle.sheet.specs.Read.{read_sheet};
ghost use Rattle.sheet.specs.Voice.{is_stereo};
ghost use Rattle.std.specs.Prelude.{Ok};
ghost use Rattle.body_read.specs.Sides.{lengths_suit};
ghost use Rattle.voice_write.specs.WriteVoice.{contents, held32, write_voice, write_sheet};

use body_read::is_suited;
use body_write::body_length;
use header::Compression;
use refusal::Refusal;
use sheet::judge_sheet;
use sheet_layout::{sheet_header, sheet_stereo};
use sheet_write::chunks_length;

// From here on a sheet or a side makes a FORM that is too long, so that no length below can pass 64 bits.
const TOO_LONG: usize = 0x4_0000_0000;

// The file's length, for samples that suit the sheet; 19.
fn suited_length(sheet: &[u8], c: Compression, left: &[i8], right: &[i8]) -> Result<usize, Refusal>
    requires { (judged sheet.now ≡ Ok tt) × (lengths_suit (read_sheet sheet.now).header (is_stereo (read_sheet sheet.now).channel) (length left.now) (length right.now) ≡ true) }
    ensures { result ≡ length_of (held32 (contents (read_sheet sheet.now) c (record { left = left.entry.now; right = right.now }))) }
{
    if TOO_LONG <= sheet.len() {
        return Err(Refusal::FormLength);
    }
    if TOO_LONG <= left.len() {
        return Err(Refusal::FormLength);
    }
    let chunks = chunks_length(sheet);
    let body = body_length(c, sheet_stereo(sheet), left, right);
    let held = 12 + chunks + body + body % 2;
    if 0xffff_ffff < held {
        return Err(Refusal::FormLength);
    }
    let length = held + 8;
    Ok(length)
}

// The file's length, for a compression that is known; 13, 18, 19.
fn known_length(sheet: &[u8], c: Compression, left: &[i8], right: &[i8]) -> Result<usize, Refusal>
    requires { (judged sheet.now ≡ Ok tt) × (known_compression (read_sheet sheet.now).header.compression_byte ≡ Ok c) }
    ensures { result ≡ length_of (write_voice (read_sheet sheet.now) (record { left = left.entry.now; right = right.now })) }
{
    let h = sheet_header(sheet);
    h.total_samples_per_channel()?;
    let suited = is_suited(h, sheet_stereo(sheet), left.len(), right.len());
    if suited {
        return suited_length(sheet, c, left, right);
    }
    Err(Refusal::SampleLengths)
}

// The file's length, for a sound sheet; 10, 13, 18, 19.
fn sound_length(sheet: &[u8], left: &[i8], right: &[i8]) -> Result<usize, Refusal>
    requires { judged sheet.now ≡ Ok tt }
    ensures { result ≡ length_of (write_voice (read_sheet sheet.now) (record { left = left.entry.now; right = right.now })) }
{
    let c = sheet_header(sheet).compression()?;
    known_length(sheet, c, left, right)
}

// The length that writing needs; refused as writing is, but never by 20.
pub fn file_length(sheet: &[u8], left: &[i8], right: &[i8]) -> Result<usize, Refusal>
    ensures { result ≡ length_of (write_sheet sheet.now (record { left = left.entry.now; right = right.now })) }
{
    judge_sheet(sheet)?;
    sound_length(sheet, left, right)
}
