// The parts of the sheet before its texts.
ghost use Rattle.std.specs.Prelude.{◌≡◌, ◌∷◌, suc, ◌+◌, ◌^◌, ◌<◌, length, get_or};
ghost use Rattle.laws.specs.Put.{Put};
ghost use Rattle.field.specs.Tagged.{tagged};
ghost use Rattle.chunk.specs.Chunk.{items_from};
ghost use Rattle.form.specs.FirstBad.{first_bad};
ghost use Rattle.form.specs.Kind.{kind_of, least};
ghost use Rattle.sheet_read.specs.Parts.{record_part, channel_part, envelope_part, segments_part};

use chunk::chunk_at;
use field::{put_byte, put_record, put_tagged};
use form::find;
use small_chunks::ChannelAssignment;

// A record of a kind whose body is the first n bytes of the chunk of a name, where there is one.
pub(crate) fn put_part(form: &[u8], id: u32, kind: u8, n: usize, d: &mut [u8], at: usize) -> usize
    requires { (first_bad (items_from form.now 12) ≡ Ok tt) × (n ≡ get_or least (kind_of id) 0) × (n < 21) × (at < 2 ^ 62) }
    ensures { Put d.old at (record_part id kind n (items_from form.now 12)) d.new result }
{
    let Some(place) = find(form, id) else {
        return at;
    };
    let end = place.start + n;
    put_record(&form[place.start..end], kind, d, at)
}

// The channel's record.
pub(crate) fn put_channel(form: &[u8], d: &mut [u8], at: usize) -> usize
    requires { (first_bad (items_from form.now 12) ≡ Ok tt) × (at < 2 ^ 62) }
    ensures { Put d.old at (channel_part (items_from form.now 12)) d.new result }
{
    let Some(place) = find(form, form::CHAN) else {
        return at;
    };
    let end = place.start + place.size;
    let Ok(c) = ChannelAssignment::parse(&form[place.start..end]) else {
        return at;
    };
    sheet::put_channel(c, d, at)
}

// A kind that begins a group, then a payload as its members of n bytes.
fn put_group(body: &[u8], opens: u8, member: u8, n: usize, d: &mut [u8], at: usize) -> usize
    requires { (0 < n) × (at + suc (length (tagged member n body.now)) < 2 ^ 63) }
    ensures { Put d.old at (opens ∷ tagged member n body.now) d.new result }
{
    let o = put_byte(d, at, opens);
    put_tagged(body, member, n, d, o)
}

// The envelopes of all chunks of a name, in file order.
pub(crate) fn put_envelopes(form: &[u8], id: u32, kind: u8, d: &mut [u8], at: usize) -> usize
    requires { at + length (envelope_part id kind (items_from form.now 12)) < 2 ^ 63 }
    ensures { Put d.old at (envelope_part id kind (items_from form.now 12)) d.new result }
{
    let mut o = at;
    let mut p = 12;
    while let Some(chunk) = chunk_at(form, p).unwrap_or(None) {
        if chunk.id == id {
            let end = chunk.start + chunk.size;
            o = put_group(&form[chunk.start..end], kind, 6, 6, d, o);
        }
        p = chunk.next;
    }
    o
}

// The sequence, where there is one.
pub(crate) fn put_sequence(form: &[u8], d: &mut [u8], at: usize) -> usize
    requires { at + length (segments_part (items_from form.now 12)) < 2 ^ 63 }
    ensures { Put d.old at (segments_part (items_from form.now 12)) d.new result }
{
    let Some(place) = find(form, form::SEQN) else {
        return at;
    };
    let end = place.start + place.size;
    put_group(&form[place.start..end], 7, 8, 8, d, at)
}
