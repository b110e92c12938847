// The next block of a mix that no rule turns back. It is made stretch by stretch: within one no entry starts and none is released, so each
// entry that sounds is played as a block of its note, and added to the sums of all of them. They are held to 16 bits once, at the end.
#![tactic(auto)]

mod entry;
mod stretch;

ghost use Rattle.std.specs.Prelude.{◌≡◌, ◌/◌, ◌%◌, ◌≤◌, pos, length, replicate};
ghost use Rattle.sheet.specs.Read.{read_sheet};
ghost use Rattle.note_frame.specs.Frames.{frames_from, interleaved};
ghost use Rattle.ensemble_block.specs.Mixed.{mixed_frame};
ghost use Rattle.ensemble_block.specs.Stretch.{Mixable};

use crate::stretch::{mix_stretch, stretch_end};
use ensemble_score::Entry;
use note_block::silence_from;
use sheet_layout::Layout;

// Fills the buffer stretch by stretch, with sums that are 0. A stretch has at most a frame for every two of them, so that they are room enough.
fn mix_through(
    score: &[Entry],
    rate: u32,
    place: u32,
    sheet: &[u8],
    l: Layout,
    left: &[i8],
    right: &[i8],
    sums: &mut [i32],
    out: &mut [i16],
)
    requires { Mixable score.now rate sheet.now l left.now right.now × (length score.now ≤ 16) × (length out.old % 2 ≡ 0) × (sums.old ≡ replicate (length sums.old) (pos 0)) × (2 ≤ length sums.old) × (length sums.old ≤ 1024) }
    ensures { out.new ≡ interleaved (frames_from (mixed_frame (read_sheet sheet.now) (record { left = left.entry.now; right = right.now }) rate score.now) place (length out.old / 2)) }
{
    let first = place as usize;
    let room = 4294967295 - first;
    let end = first + (out.len() / 2).min(room);
    let most = sums.len() / 2;
    let mut at = first;
    // by places: a stretch ends where the next entry begins or where the sums are full, and the library cuts parts of one length only
    while at < end {
        let next = stretch_end(score, at, end, most);
        let values = 2 * (next - at);
        let from = 2 * (at - first);
        let to = 2 * (next - first);
        let stretch = &mut out[from..to];
        let totals = &mut sums[0..values];
        mix_stretch(score, rate, at, sheet, l, left, right, totals, stretch);
        at = next;
    }
    silence_from(out, 2 * (end - first));
}

// Fills the whole buffer with the mixed frames from a place on. A short block has short sums, which are cleared sooner; a long one has fewer
// stretches.
pub fn mixed_block(
    score: &[Entry],
    rate: u32,
    place: u32,
    sheet: &[u8],
    l: Layout,
    left: &[i8],
    right: &[i8],
    out: &mut [i16],
)
    requires { Mixable score.now rate sheet.now l left.now right.now × (length score.now ≤ 16) × (length out.old % 2 ≡ 0) }
    ensures { out.new ≡ interleaved (frames_from (mixed_frame (read_sheet sheet.now) (record { left = left.entry.now; right = right.now }) rate score.now) place (length out.old / 2)) }
{
    if out.len() <= 128 {
        let mut few: [i32; 128] = [0; 128];
        mix_through(score, rate, place, sheet, l, left, right, &mut few, out);
        return;
    }
    let mut many: [i32; 1024] = [0; 1024];
    mix_through(score, rate, place, sheet, l, left, right, &mut many, out);
}
