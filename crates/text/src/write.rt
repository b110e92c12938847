// A text put on the sheet, a record of kind 11 for each byte.
ghost use Rattle.std.specs.Prelude.{◌+◌, ◌^◌, ◌<◌, length};
ghost use Rattle.laws.specs.Put.{Put};
ghost use Rattle.text.specs.Text.{clean};
ghost use Rattle.text.specs.TextRecords.{text_records};
ghost use Rattle.text_utf8.specs.Step.{subsequence};
ghost use Rattle.text_utf8.specs.Utf8.{bytes, lossy, replaced};

use crate::part::{cut_at_zero, trimmed};
use text_utf8::step_at;

// A part as text records: as it is, or U+FFFD where it is ill-formed. The records of U+FFFD are at hand, as there may be one for each byte.
fn put_part(part: &[u8], well_formed: bool, d: &mut [u8], at: usize) -> usize
    requires { at + length (text_records (bytes (replaced (subsequence well_formed part.now)))) < 2 ^ 63 }
    ensures { Put d.old at (text_records (bytes (replaced (subsequence well_formed part.now)))) d.new result }
{
    if well_formed {
        return field::put_tagged(part, 11, 1, d, at);
    }
    field::put_all(&[11, 0xEF, 11, 0xBF, 11, 0xBD], d, at)
}

// The bytes with their ill-formed parts replaced, as text records; the place past them.
#[tactic(auto, using(text_utf8::proofs::SpanLaws::step_within))]
fn put_lossy(s: &[u8], d: &mut [u8], at: usize) -> usize
    requires { at + length (text_records (lossy s.now)) < 2 ^ 63 }
    ensures { Put d.old at (text_records (lossy s.now)) d.new result }
{
    let mut i = 0;
    let mut o = at;
    while let Some(part) = step_at(s, i) {
        o = put_part(&s[i..part.next], part.well_formed, d, o);
        i = part.next;
    }
    o
}

// The text of a payload as text records, from `at` on; the place past them. What does not fit is passed over.
#[tactic(auto, using(crate::proofs::TrimLaws::clean_is))]
pub fn put_text(payload: &[u8], d: &mut [u8], at: usize) -> usize
    requires { at + length (text_records (clean payload.now)) < 2 ^ 63 }
    ensures { Put d.old at (text_records (clean payload.now)) d.new result }
{
    let text = cut_at_zero(payload);
    let part = trimmed(text);
    put_lossy(part, d, at)
}
