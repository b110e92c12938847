// Where a block stands.
ghost use Rattle.std.specs.Prelude.{◌≡◌, ◌+◌, ◌≤◌, ◌<◌, ◌^◌};
ghost use Rattle.note_stage.specs.Block.{Timed, Stands};

use crate::Stage;
use note_clock::{Clock, clock_at, tick};

// The next frame of the note, its place on the path in 65,536ths of a step, and its milliseconds in the stage.
#[derive(Clone, Copy)]
pub(crate) struct Playhead {
    pub frame: usize,
    pub place: usize,
    pub clock: Clock,
}

// The playhead at frame m, where a block begins: here its milliseconds are divided out.
pub(crate) fn playhead_at(stage: Stage, m: usize) -> Playhead
    requires { Timed stage × (stage.since ≤ m) × (m < 2 ^ 32) }
    ensures { Stands stage result × (result.frame ≡ m) }
{
    let place = m * stage.step;
    let passed = m - stage.since;
    Playhead {
        frame: m,
        place,
        clock: clock_at(stage.rate, passed),
    }
}

// One frame on, by sums.
pub(crate) fn next_frame(stage: Stage, h: Playhead) -> Playhead
    requires { Timed stage × Stands stage h × (stage.since ≤ h.frame) × (h.frame < 2 ^ 32) }
    ensures { Stands stage result × (result.frame ≡ h.frame + 1) }
{
    let frame = h.frame + 1;
    let place = h.place + stage.step;
    Playhead {
        frame,
        place,
        clock: tick(h.clock),
    }
}
