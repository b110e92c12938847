// The length of a text.
ghost use Rattle.std.specs.Prelude.{◌≡◌, ◌^◌, min, length};
ghost use Rattle.text.specs.Text.{clean};
ghost use Rattle.text_utf8.specs.Utf8.{lossy};

use crate::part::{cut_at_zero, trimmed};
use crate::replacement::replaced;
use text_utf8::step_at;

// A length larger than that is not told apart from it.
const LONGEST: usize = 1 << 62;

// The length of the bytes with their ill-formed parts replaced, or 2 ^ 62 where it is larger.
#[tactic(auto, using(text_utf8::proofs::SpanLaws::step_within))]
fn lossy_len(s: &[u8]) -> usize
    ensures { result ≡ min (length (lossy s.now)) (2 ^ 62) }
{
    let mut n = 0;
    let mut at = 0;
    while let Some(part) = step_at(s, at) {
        let size = replaced(&s[at..part.next], part.well_formed).len();
        n = (n + size).min(LONGEST);
        at = part.next;
    }
    n
}

// The length of a payload's text, or 2 ^ 62 where it is larger, which a payload below 2 ^ 60 bytes never comes to. A text of
// length 0 is dropped.
#[tactic(auto, using(crate::proofs::TrimLaws::clean_is))]
pub fn clean_len(payload: &[u8]) -> usize
    ensures { result ≡ min (length (clean payload.now)) (2 ^ 62) }
{
    let text = cut_at_zero(payload);
    let part = trimmed(text);
    lossy_len(part)
}
