// Stretches: where one ends, and its frames.
ghost use Rattle.std.specs.Prelude.{◌≡◌, ◌/◌, ◌≤◌, ◌<◌, ◌^◌, pos, length, replicate};
ghost use Rattle.sheet.specs.Read.{read_sheet};
ghost use Rattle.note_frame.specs.Frames.{frames_from, interleaved};
ghost use Rattle.ensemble_block.specs.Mixed.{mixed_frame};
ghost use Rattle.ensemble_block.specs.Stretch.{cut_at, StretchTo, StretchReady};

use crate::entry::add_entry;
use ensemble_score::Entry;
use ensemble_sums::put_held;
use sheet_layout::Layout;

// An end, or an event that lies past `at` and before it.
fn cut_at(at: usize, end: usize, event: u32) -> usize
    ensures { result ≡ cut_at at end event }
{
    let frame = event as usize;
    if frame <= at {
        return end;
    }
    end.min(frame)
}

// The end of the stretch from mixed frame `at` on, which has at most `most` frames.
pub(crate) fn stretch_end(score: &[Entry], at: usize, end: usize, most: usize) -> usize
    requires { (at < end) × (end < 2 ^ 32) × (0 < most) × (most < 2 ^ 32) }
    ensures { StretchTo score.now at end most result }
{
    let mut next = end.min(at + most);
    for e in score {
        let before_start = cut_at(at, next, e.start);
        next = cut_at(at, before_start, e.key_up);
    }
    next
}

// The mixed frames of a stretch. The sums are 0 before and after.
pub(crate) fn mix_stretch(
    score: &[Entry],
    rate: u32,
    at: usize,
    sheet: &[u8],
    l: Layout,
    left: &[i8],
    right: &[i8],
    sums: &mut [i32],
    out: &mut [i16],
)
    requires { StretchReady score.now rate at sheet.now l left.now right.now sums.old out.old × (length score.now ≤ 16) }
    ensures out { out.new ≡ interleaved (frames_from (mixed_frame (read_sheet sheet.now) (record { left = left.entry.now; right = right.now }) rate score.now) at (length out.old / 2)) }
    ensures sums { sums.new ≡ replicate (length sums.old) (pos 0) }
{
    // by index, so that must-fail/first_entry_left_out changes one number and nothing of the form
    for i in 0..score.len() {
        add_entry(score[i], rate, at, sheet, l, left, right, sums, out);
    }
    put_held(sums, out);
}
