// The nearest place where the sign of samples changes: the quiet spot beside the one that was pointed at.
#![tactic(auto)]

ghost use Rattle.std.specs.Prelude.{◌≡◌, ◌+◌, ◌-◌, ◌≤◌, ◌<◌, min, length};
ghost use Rattle.crossing.specs.Crossing.{is_below, unlike, nearest_crossing};
ghost use Rattle.crossing.specs.Helpers.{Searched};

use refusal::Refusal;

// Whether the sample at a place is below 0.
fn is_below(samples: &[i8], i: usize) -> bool
    requires { i < length samples.now }
    ensures { result ≡ is_below samples.now i }
{
    samples[i] < 0
}

// Whether the sample at a place is on the other side of 0 than a sample that is `below` or not.
fn turns(below: bool, samples: &[i8], i: usize) -> bool
    requires { i < length samples.now }
    ensures { result ≡ unlike below (is_below samples.now i) }
{
    is_below(samples, i) != below
}

// How many distances there are to look at on a side of so many places: those within reach.
fn distances(reach: usize, places: usize) -> usize
    ensures { result ≡ min (reach + 1) places }
{
    reach.saturating_add(1).min(places)
}

// The search where only places before the start are left, from a distance on. One function for this and for `search_after` would take the
// side's places and samples as closures, and be no plainer.
fn search_before(samples: &[i8], start: usize, reach: usize, from: usize) -> Result<usize, Refusal>
    requires { Searched samples.now start from × (min (reach + 1) (length samples.now - start) ≤ from) }
    ensures { result ≡ nearest_crossing samples.now start reach }
{
    let below = is_below(samples, start);
    for d in from..distances(reach, start) {
        if turns(below, samples, start - d - 1) {
            return Ok(start - d);
        }
    }
    Err(Refusal::NoCrossing)
}

// The search where only places after the start are left, from a distance on.
fn search_after(samples: &[i8], start: usize, reach: usize, from: usize) -> Result<usize, Refusal>
    requires { Searched samples.now start from × (min (reach + 1) start ≤ from) × (start + from ≤ length samples.now) }
    ensures { result ≡ nearest_crossing samples.now start reach }
{
    let below = is_below(samples, start);
    let end = start + distances(reach, samples.len() - start);
    // by places: with distances there are two numbers to count, and it takes half as long again
    for i in start + from..end {
        if turns(below, samples, i) {
            return Ok(i);
        }
    }
    Err(Refusal::NoCrossing)
}

// The search from a place that has a sample, outward on both sides and then on the longer one: one loop over both, with a test of each side,
// takes twice the time. Up to the first crossing all samples have the sign of this one, so that a single sample tells whether a place is a
// crossing.
fn search(samples: &[i8], start: usize, reach: usize) -> Result<usize, Refusal>
    requires { start < length samples.now }
    ensures { result ≡ nearest_crossing samples.now start reach }
{
    let below = is_below(samples, start);
    let before = distances(reach, start);
    let after = distances(reach, samples.len() - start);
    let both = before.min(after);
    for d in 0..both {
        let turns_before = turns(below, samples, start - d - 1);
        let turns_after = turns(below, samples, start + d);
        if turns_before {
            return Ok(start - d);
        }
        if turns_after {
            return Ok(start + d);
        }
    }
    if both < before {
        return search_before(samples, start, reach, both);
    }
    search_after(samples, start, reach, both)
}

// The crossing nearest to a place, at most the reach away, and of two as near the earlier. Both may be any number: past the end the last
// sample is where the search begins, and what lies between counts.
pub fn nearest_crossing(samples: &[i8], place: usize, reach: usize) -> Result<usize, Refusal>
    ensures { result ≡ nearest_crossing samples.now place reach }
{
    let n = samples.len();
    if place < n {
        return search(samples, place, reach);
    }
    if n == 0 {
        return Err(Refusal::NoCrossing);
    }
    let last = n - 1;
    let past = place - last;
    if reach < past {
        return Err(Refusal::NoCrossing);
    }
    search(samples, last, reach - past)
}
