// The mixer: a score of up to 16 timed notes on one voice, block by block.
#![tactic(auto)]

mod by_value;

ghost use Rattle.std.specs.Prelude.{◌≡◌, ◌<◌, ◌^◌};
ghost use Rattle.ensemble.specs.Mix.{place_after, after_mix};

pub use by_value::mix_score;
use ensemble_block::mixed_block;
use ensemble_rules::{play_refusal, score_refusal};
pub use ensemble_score::{Entry, Score, score_of};
use refusal::Refusal;
use sheet_layout::layout_of;
use voice::judge_sheet;

// The place after so many frames more; it stops at 4,294,967,295.
fn place_after(place: u32, frames: usize) -> u32
    requires { frames < 2 ^ 63 }
    ensures { result ≡ place_after place frames }
{
    let sum = place as usize + frames;
    sum.min(4294967295) as u32
}

// Fills a buffer with the mixed frames from a place on, left and right values by turns, and answers the place after them. 46, 45 and 47; 15 to
// 17, 10, 13, 18, 21 to 23, 25; then entry by entry 24, 31 to 33 and 44. A refused call leaves the buffer as it was.
pub fn mix(
    score: &[Entry],
    rate: u32,
    place: u32,
    sheet: &[u8],
    left: &[i8],
    right: &[i8],
    out: &mut [i16],
) -> Result<u32, Refusal>
    ensures answer { result ≡ (after_mix score.now rate place sheet.now (record { left = left.entry.now; right = right.now }) out.old).answer }
    ensures buffer { out.new ≡ (after_mix score.now rate place sheet.now (record { left = left.entry.now; right = right.now }) out.old).buffer }
{
    score_refusal(score)?;
    judge_sheet(sheet)?;
    let l = layout_of(sheet);
    let places = out.len();
    play_refusal(sheet, l, left.len(), right.len(), score, rate, places)?;
    mixed_block(score, rate, place, sheet, l, left, right, out);
    Ok(place_after(place, places / 2))
}
