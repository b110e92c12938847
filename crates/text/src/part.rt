// The part of a payload that its text keeps.
ghost use Rattle.std.specs.List.{position};
ghost use Rattle.std.specs.Prelude.{◌≡◌, ◌==◌, ◌≤◌, length};
ghost use Rattle.text.specs.Place.{text_end, trimmed_at};
ghost use Rattle.text.specs.Text.{before_zero, trim_start, trim};
ghost use Rattle.text_utf8.specs.Step.{subsequences_from};
ghost use Rattle.text_utf8.specs.Utf8.{subsequences};

use crate::white_space::is_white_part;
use text_utf8::step_at;

// The place of the first zero byte.
fn first_zero(s: &[u8]) -> Option<usize>
    ensures { result ≡ position (λ b. b == 0) s.now }
{
    s.iter().position(|b| *b == 0)
}

// The bytes before the first zero byte.
pub fn cut_at_zero(s: &[u8]) -> &[u8]
    ensures contents { result.now ≡ before_zero s.now }
    ensures place { result.ref_ptr ≡ s.entry.ref_ptr }
{
    let end = first_zero(s).unwrap_or(s.len());
    &s[..end]
}

// The place of the first subsequence that is not white, or the end.
#[tactic(auto, using(text_utf8::proofs::SpanLaws::step_within))]
fn text_start(s: &[u8]) -> usize
    ensures { (subsequences_from s.now result ≡ trim_start (subsequences s.now)) × (result ≤ length s.now) }
{
    let mut at = 0;
    while let Some(part) = step_at(s, at)
        && is_white_part(&s[at..part.next], part.well_formed)
    {
        at = part.next;
    }
    at
}

// The place past the last subsequence from `from` on that is not white, or `from`.
#[tactic(auto, using(text_utf8::proofs::SpanLaws::step_within))]
fn text_end(s: &[u8], from: usize) -> usize
    requires { from ≤ length s.now }
    ensures { (result ≡ text_end from from (subsequences_from s.now from)) × (from ≤ result) × (result ≤ length s.now) }
{
    let mut at = from;
    let mut end = from;
    while let Some(part) = step_at(s, at) {
        // an ill-formed part is not white: asked first, as ill-formed bytes in a row then take a fifth fewer instructions
        if !part.well_formed || !is_white_part(&s[at..part.next], part.well_formed) {
            end = part.next;
        }
        at = part.next;
    }
    end
}

// The bytes without the white subsequences at both ends.
pub fn trimmed(s: &[u8]) -> &[u8]
    ensures contents { result.now ≡ trim s.now }
    ensures place { result.ref_ptr ≡ trimmed_at s.entry.ref_ptr s.now }
{
    let from = text_start(s);
    let end = text_end(s, from);
    &s[from..end]
}
