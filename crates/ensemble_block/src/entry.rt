// One entry in a stretch.
ghost use Rattle.std.specs.Prelude.{◌≡◌, ℕ, ◌+◌, ◌/◌, ◌≤◌, length};
ghost use Rattle.sheet.specs.Read.{read_sheet};
ghost use Rattle.note_frame.specs.Frames.{frames_from, interleaved};
ghost use Rattle.ensemble_block.specs.Mixed.{entry_frame};
ghost use Rattle.ensemble_sums.specs.Sums.{plus, Within};
ghost use Rattle.ensemble_block.specs.Stretch.{key_at, EntryReady};

use ensemble_score::Entry;
use ensemble_sums::add_values;
use note_block::sounding_block;
use note_frame::{Key, Playing};
use sheet_layout::Layout;

// Held, or released at its key-up, counted from its start.
fn key_at(e: Entry, at: usize) -> Key
    requires { e.start ≤ e.key_up }
    ensures { result ≡ key_at at e }
{
    if e.key_up as usize <= at {
        return Key::Released(e.key_up - e.start);
    }
    Key::Held
}

// Adds what an entry gives to a stretch from mixed frame `at` on. `out` serves as room for its note's block; an entry that hasn't started, or
// is over, costs nothing per frame.
pub(crate) fn add_entry(
    e: Entry,
    rate: u32,
    at: usize,
    sheet: &[u8],
    l: Layout,
    left: &[i8],
    right: &[i8],
    sums: &mut [i32],
    out: &mut [i16],
)
    requires { EntryReady e rate at sheet.now l left.now right.now sums.old out.old }
    ensures sums { sums.new ≡ plus (interleaved (frames_from (λ m. entry_frame (read_sheet sheet.now) (record { left = left.entry.now; right = right.now }) rate m e) at (length out.old / 2))) sums.old }
    ensures small { (b : ℕ) → Within b sums.old → Within (b + 32768) sums.new }
{
    if at < e.start as usize {
        return;
    }
    let frames = at - e.start as usize;
    let key = key_at(e, at);
    let playing = Playing {
        octave: e.octave,
        velocity: e.velocity,
        step: e.step,
        rate,
        key,
    };
    let count = sounding_block(playing, frames as u32, sheet, l, left, right, out);
    let values = 2 * count;
    add_values(out, values, sums);
}
