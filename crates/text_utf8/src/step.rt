// The bytes of a slice, one subsequence at a time.
ghost use Rattle.std.specs.Prelude.{◌≡◌};
ghost use Rattle.text_utf8.specs.Lead.{ranges_of};
ghost use Rattle.text_utf8.specs.Step.{utf8_step_at};
ghost use Rattle.text_utf8.specs.Utf8.{matching, well_formed};

use crate::table::{Follow, lead_of};

// What begins at a place: a well-formed sequence of one scalar value, or a maximal subpart of an ill-formed one. `next` is the
// place past it.
#[derive(Clone, Copy, Debug, PartialEq, Eq)]
pub struct Utf8Part {
    pub next: usize,
    pub well_formed: bool,
}

// How many bytes, from the first on, are what has to follow.
#[tactic(auto, using(crate::proofs::MatchingLaws::matching_steps))]
fn matching(s: &[u8], follow: Follow) -> usize
    ensures { result ≡ matching (ranges_of follow) s.now }
{
    let mut left = follow;
    for (i, b) in s.iter().enumerate() {
        if left.more == 0 || !left.takes(*b) {
            return i;
        }
        left = left.after_one();
    }
    s.len()
}

// What begins at `at`; nothing at the end. Inlined, so that a loop over the parts keeps the answer in registers.
#[inline]
#[tactic(auto, using(crate::proofs::StepLaws::step_answers))]
pub fn step_at(s: &[u8], at: usize) -> Option<Utf8Part>
    ensures { result ≡ utf8_step_at s.now at }
{
    let lead = *s.get(at)?;
    let start = at + 1;
    let Some(follow) = lead_of(lead) else {
        return Some(Utf8Part {
            next: start,
            well_formed: false,
        });
    };
    let n = matching(&s[start..], follow);
    Some(Utf8Part {
        next: start + n,
        well_formed: n == follow.more,
    })
}

// No part of the bytes is ill-formed.
#[tactic(auto, using(crate::proofs::SpanLaws::well_steps))]
pub fn well_formed(s: &[u8]) -> bool
    ensures { result ≡ well_formed s.now }
{
    let mut at = 0;
    while let Some(part) = step_at(s, at) {
        if !part.well_formed {
            return false;
        }
        at = part.next;
    }
    true
}
