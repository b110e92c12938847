// The frames that lie in one run of the path at one level.
ghost use Rattle.std.specs.Prelude.{◌≡◌, ◌/◌, ◌≤◌, ◌<◌};
ghost use Rattle.note_frame.specs.Frame.{step_of};
ghost use Rattle.note_stage.specs.Block.{run_frame, Suits, StretchReady, Stretched};

use crate::Stage;
use crate::playhead::Playhead;
use crate::step::{goes_on, play_step};
use note_envelope::EnvelopeCursor;
use note_frame::{Frame, Gains, frame_at};
use note_path::Run;

// The frame of step q.
fn step_frame(g: Gains, r: Run, level: u32, q: usize, left: &[i8], right: &[i8]) -> Frame
    requires { Suits g r level left.now right.now × (r.from ≤ q) × (q < r.until) }
    ensures { result ≡ run_frame g r level left.now right.now q }
{
    let i = r.start + (q - r.from);
    frame_at(g, level, q, i, left, right)
}

// Writes frames as long as they lie in the run and at the level in hand, up to the block's end; answers where the block stands then.
// Nothing is asked of the path or the envelope, and each step's frame is made once. The loop goes by the playhead, which a turn moves on
// by as many frames as the step has, so no range or iterator says it more plainly.
pub(crate) fn play_run(
    g: Gains,
    stage: Stage,
    e: EnvelopeCursor,
    r: Run,
    left: &[i8],
    right: &[i8],
    m: usize,
    end: usize,
    from: Playhead,
    out: &mut [i16],
) -> Playhead
    requires { Suits g r e.now left.now right.now × (r.from ≤ from.place / 65536) × StretchReady stage r.until e.until m end from out.old }
    ensures { Stretched (λ p. run_frame g r e.now left.now right.now (step_of stage.step p)) stage r.until e.until m end from out.old out.new result }
{
    let mut h = from;
    while goes_on(r.until, e.until, end, h) {
        let q = h.place / 65536;
        let f = step_frame(g, r, e.now, q, left, right);
        h = play_step(stage, e.until, q, f, m, end, h, out);
    }
    h
}
