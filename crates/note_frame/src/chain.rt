// The value chain, and the two sides.
ghost use Rattle.std.specs.Prelude.{◌≡◌, true, ◌≤◌, ◌<◌, length};
ghost use Rattle.std.specs.Prelude.{Some};
ghost use Rattle.std.specs.Int.{w16};
ghost use Rattle.std.proofs.Common.{SFits};
ghost use Rattle.envelope.specs.Level.{scaled_by};
ghost use Rattle.note_frame.specs.Frame.{silent};
ghost use Rattle.note_frame.specs.Gains.{faded_with, before_sides, frame_with, InRange};

use envelope::scaled;

// What doesn't change from frame to frame: the volume and the sides' shares, at most 65,536 each; the velocity, at most 127; that each side
// has its own samples; and the fade, from step `fade_start` to the path's length.
#[derive(Clone, Copy)]
pub struct Gains {
    pub volume: u32,
    pub velocity: u32,
    pub left_share: u32,
    pub right_share: u32,
    pub stereo: bool,
    pub fades: bool,
    pub fade_start: u32,
    pub path_length: u32,
}

// A value for each side, and whether the frame isn't over.
#[derive(Clone, Copy)]
pub struct Frame {
    pub left: i16,
    pub right: i16,
    pub sounds: bool,
}

// A value of step q, faded.
fn fade_by(g: Gains, q: usize, x: i32) -> i32
    requires { g.fades ≡ true → q < g.path_length }
    ensures { result ≡ faded_with g q x }
{
    if g.fades && g.fade_start as usize <= q {
        return scaled(x, g.path_length - q as u32, g.path_length - g.fade_start);
    }
    x
}

// A sample's value at a level, before it goes to a side.
fn before_sides(g: Gains, level: u32, q: usize, sample: i8) -> i32
    requires { (level ≤ 65536) × (g.volume ≤ 65536) × (g.velocity ≤ 127) × (g.fades ≡ true → q < g.path_length) }
    ensures { (result ≡ before_sides g level q sample) × SFits w16 result }
{
    let at_level = scaled(sample as i32 * 256, level, 65536);
    let at_volume = scaled(at_level, g.volume, 65536);
    fade_by(g, q, scaled(at_volume, g.velocity, 127))
}

// A side's share of a value.
fn on_side(x: i32, share: u32) -> i16
    requires { SFits w16 x × (share ≤ 65536) }
    ensures { result ≡ scaled_by x share 65536 }
{
    scaled(x, share, 65536) as i16
}

// A frame that is over.
pub fn over() -> Frame
    ensures { result ≡ silent }
{
    Frame {
        left: 0,
        right: 0,
        sounds: false,
    }
}

// The frame of step q at a level, whose samples lie at place i.
pub fn frame_at(g: Gains, level: u32, q: usize, i: usize, left: &[i8], right: &[i8]) -> Frame
    requires { InRange g level q × (i < length left.now) × (g.stereo ≡ true → i < length right.now) }
    ensures { result ≡ frame_with g left.now right.now q (Some i) (Some level) }
{
    let l = before_sides(g, level, q, left[i]);
    if g.stereo {
        let r = before_sides(g, level, q, right[i]);
        return Frame {
            left: on_side(l, g.left_share),
            right: on_side(r, g.right_share),
            sounds: true,
        };
    }
    Frame {
        left: on_side(l, g.left_share),
        right: on_side(l, g.right_share),
        sounds: true,
    }
}
