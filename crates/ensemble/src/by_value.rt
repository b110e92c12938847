// A score by value, for callers that have no slice of entries to lend.
ghost use Rattle.std.specs.Prelude.{◌≡◌, ℕ, List, ◌<◌, length, get_or};
ghost use Rattle.ensemble.specs.Mix.{after_mix};
ghost use Rattle.ensemble_score.specs.Score.{blank, entry_in, TakenFrom};
ghost use Rattle.ensemble_score.specs.declared.Entry.{Entry};

use crate::mix;
use ensemble_score::{Entry, Score, nth_entry};
use refusal::Refusal;

// The entries of a score's numbers.
fn entries_of(numbers: &[u32; 80]) -> [Entry; 16]
    ensures length { length result ≡ 16 }
    ensures entries { (i : ℕ) → i < 16 → get_or result i blank ≡ entry_in numbers.now i }
{
    let none = Entry {
        start: 0,
        key_up: 0,
        step: 0,
        octave: 0,
        velocity: 0,
    };
    let mut entries = [none; 16];
    for i in 0..16 {
        entries[i] = nth_entry(numbers, i);
    }
    entries
}

// `mix` of a score by value, for callers that have taken it over from a slice.
pub fn mix_score(
    score: Score,
    rate: u32,
    place: u32,
    sheet: &[u8],
    left: &[i8],
    right: &[i8],
    out: &mut [i16],
) -> Result<u32, Refusal>
    ensures answer { (entries : List Entry) → TakenFrom entries score → result ≡ (after_mix entries rate place sheet.now (record { left = left.entry.now; right = right.now }) out.old).answer }
    ensures buffer { (entries : List Entry) → TakenFrom entries score → out.new ≡ (after_mix entries rate place sheet.now (record { left = left.entry.now; right = right.now }) out.old).buffer }
{
    if 16 < score.count {
        return Err(Refusal::EntryCount);
    }
    let entries = entries_of(&score.numbers);
    mix(
        &entries[..score.count],
        rate,
        place,
        sheet,
        left,
        right,
        out,
    )
}
