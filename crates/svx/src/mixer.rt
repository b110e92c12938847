// The mixer. A score crosses as it is: its entries have C's layout.
ghost use Rattle.std.specs.Prelude.{◌≡◌};
ghost use Rattle.ensemble.specs.Mix.{after_mix};
ghost use Rattle.svx.specs.Answers.{refusal_number, handed};

use crate::hand::hand_place;
use ensemble::{Entry, mix};

#[unsafe(no_mangle)]
pub extern "C" fn svx_mix(
    score: &[Entry],
    rate: u32,
    place: u32,
    sheet: &[u8],
    left: &[i8],
    right: &[i8],
    out: &mut [i16],
    after: &mut u32,
) -> u32
    ensures result { result ≡ refusal_number (after_mix score.now rate place sheet.now (record { left = left.entry.now; right = right.now }) out.old).answer }
    ensures buffer { out.new ≡ (after_mix score.now rate place sheet.now (record { left = left.entry.now; right = right.now }) out.old).buffer }
    ensures after { after.new ≡ handed (after_mix score.now rate place sheet.now (record { left = left.entry.now; right = right.now }) out.old).answer after.old }
{
    let mixed = mix(score, rate, place, sheet, left, right, out);
    hand_place(mixed, after)
}
