// The frames of one step.
ghost use Rattle.std.specs.Prelude.{◌≡◌, ◌+◌, ◌<◌, ◌^◌, length, set};
ghost use Rattle.note_stage.specs.Block.{goes_on, StretchReady, Stretched};

use crate::Stage;
use crate::playhead::{Playhead, next_frame};
use note_frame::Frame;

fn put_frame(out: &mut [i16], at: usize, left: i16, right: i16)
    requires { at + 1 < length out.old }
    ensures { out.new ≡ set (set out.old at left) (at + 1) right }
{
    out[at] = left;
    let next = at + 1;
    out[next] = right;
}

// The frame is before the block's end, before step `until` and before millisecond `ms`.
pub(crate) fn goes_on(until: usize, ms: usize, end: usize, h: Playhead) -> bool
    ensures { result ≡ goes_on until ms end h }
{
    if h.frame < end {
        if h.place / 65536 < until {
            let clock = h.clock;
            return clock.ms < ms;
        }
    }
    false
}

// Writes f as long as the step is q, up to millisecond `ms` or the block's end; answers where the block stands then. Below one sample a
// frame a step has several frames. How many there are is known only as the playhead moves, so the loop goes by it.
pub(crate) fn play_step(
    stage: Stage,
    ms: usize,
    q: usize,
    f: Frame,
    m: usize,
    end: usize,
    from: Playhead,
    out: &mut [i16],
) -> Playhead
    requires { (q < 2 ^ 62) × StretchReady stage (q + 1) ms m end from out.old }
    ensures { Stretched (λ p. f) stage (q + 1) ms m end from out.old out.new result }
{
    let past = q + 1;
    let mut h = from;
    while goes_on(past, ms, end, h) {
        put_frame(out, 2 * (h.frame - m), f.left, f.right);
        h = next_frame(stage, h);
    }
    h
}
