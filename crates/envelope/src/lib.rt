// The level of an envelope at a time, and how long an envelope takes; and quotients that cut toward zero, as its levels are made of.
#![tactic(auto)]

mod level;

ghost use Rattle.std.specs.Prelude.{◌≡◌, ◌-◌, ◌^◌, min};
ghost use Rattle.small_chunks.specs.Envelope.{envelope_points};
ghost use Rattle.envelope.specs.Envelope.{level_at, total_duration};

pub use level::{on_the_way, scaled};
use small_chunks::read_point;

// The level t_ms milliseconds into an envelope that begins at `start`. Points are as ATAK and RLSE have them, six bytes each; a
// remainder is ignored.
pub fn level_at_ms(points: &[u8], start: i32, t_ms: u64) -> i32
    ensures { result ≡ level_at (envelope_points points.now) start t_ms }
{
    let mut level = start;
    let mut left = t_ms;
    for point in points.chunks_exact(6) {
        let p = read_point(point, 0);
        let duration = u64::from(p.duration_ms);
        if left < duration {
            return on_the_way(level, p.dest, left as u16, p.duration_ms);
        }
        level = p.dest;
        left -= duration;
    }
    level
}

// How many milliseconds the points take together. A sum past 64 bits, which no memory holds points for, stays at the largest.
pub fn total_duration_ms(points: &[u8]) -> u64
    ensures { result ≡ min (total_duration (envelope_points points.now)) (2 ^ 64 - 1) }
{
    let mut sum: u64 = 0;
    for point in points.chunks_exact(6) {
        let duration = u64::from(read_point(point, 0).duration_ms);
        sum = sum.saturating_add(duration);
    }
    sum
}
