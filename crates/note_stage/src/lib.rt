// A block of frames. Nothing is looked up in the sheet for a frame, and nothing divided by the rate: a clock, and cursors on the envelope
// and on the path, are carried along.
#![tactic(auto)]

mod playhead;
mod run;
mod step;

ghost use Rattle.std.specs.Prelude.{◌≡◌};
ghost use Rattle.note_stage.specs.Block.{is_over, stage_frame, Playable, Played};

use crate::playhead::playhead_at;
use crate::run::play_run;
use note_envelope::{EnvelopeCursor, cursor_at, cursor_to};
use note_frame::Gains;
use note_path::{Path, Run, run_start, run_to};

// The stage of the envelope that a block lies in, the attack or the release: the note's step and rate, the frame that the stage counts
// from, the level there, and whether the note is over where the points end.
#[derive(Clone, Copy)]
pub struct Stage {
    pub step: usize,
    pub rate: usize,
    pub since: usize,
    pub level: i32,
    pub ends: bool,
}

// The frame of step q is over: past the run, which then is the path's last, or past the points of a stage that ends.
fn is_over(ends: bool, e: EnvelopeCursor, r: Run, q: usize) -> bool
    ensures { result ≡ is_over ends e r q }
{
    if q < r.until {
        if ends {
            return e.ended;
        }
        return false;
    }
    true
}

// The frames from frame m on, d of them or up to the first that is over, written from the front of `out` on; answers how many. Once a
// frame is over all later ones are.
pub fn play(
    g: Gains,
    path: Path,
    stage: Stage,
    points: &[u8],
    segments: &[u8],
    left: &[i8],
    right: &[i8],
    m: usize,
    d: usize,
    out: &mut [i16],
) -> usize
    requires { Playable g path stage points.now segments.now left.now right.now m d out.old }
    ensures { Played (stage_frame g path stage points.now segments.now left.now right.now) m d out.old out.new result }
{
    let end = m + d;
    let mut h = playhead_at(stage, m);
    let mut e = cursor_at(points, stage.level, h.clock.ms);
    let mut r = run_start(path, segments);
    // by the playhead, which a turn moves on by a run of frames
    while h.frame < end {
        let q = h.place / 65536;
        e = cursor_to(points, e, h.clock.ms);
        r = run_to(path, segments, r, q);
        if is_over(stage.ends, e, r, q) {
            return h.frame - m;
        }
        h = play_run(g, stage, e, r, left, right, m, end, h, out);
    }
    d
}
