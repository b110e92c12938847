// The writer's choice of a nibble.
ghost use Rattle.std.specs.Prelude.{◌≡◌};
ghost use Rattle.fibonacci.specs.Helpers.{nearest_step, NearestTable, picked};

use crate::search::nearest_of_all;
use crate::step::{difference, fib_step};
use field::sample_sum;

// For each change from -33 to 21 the nibble whose delta is nearest, by a letter, A for 0 to P for 15; and after these 55 for each change that
// delta, c for 0, so A for -34 to x for 21. Of two deltas as near, at -17, -4, 4 and 17, it is the one nearer to 0. The table is lent to
// every choice of a channel, as an array that a function names itself is laid out anew in each call.
pub(crate) const NEAREST: [u8; 110] =
    *b"AAAAAABBBBBBBBBBCCCCCCCDDDDEEFFGHIJKLLMMNNNNOOOOOOOPPPPAAAAAANNNNNNNNNNVVVVVVV[[[[^^``abcdeffhhkkkkpppppppxxxx";

// A nibble and its delta.
#[derive(Clone, Copy)]
struct NearestStep {
    nibble: u8,
    delta: i8,
}

// A nibble, and the sample that the decoder has after it.
#[derive(Clone, Copy)]
pub(crate) struct Picked {
    pub(crate) nibble: u8,
    pub(crate) sample: i8,
}

// The nibble whose delta is nearest to a change.
fn nearest_step(table: &[u8], change: i16) -> NearestStep
    requires { NearestTable table.now }
    ensures { result ≡ nearest_step change }
{
    if change < -33 {
        return NearestStep {
            nibble: 0,
            delta: -34,
        };
    }
    if 21 < change {
        return NearestStep {
            nibble: 15,
            delta: 21,
        };
    }
    let past = change + 33;
    let i = past as usize;
    let nibble = table[i] - b'A';
    let j = i + 55;
    let delta = table[j] as i8 - 99;
    NearestStep { nibble, delta }
}

// The nibble that is written for the target. From -94 to 106 no step wraps, so the change alone decides; from other samples all sixteen
// are looked at.
pub(crate) fn fib_pick_nibble(table: &[u8], prev: i8, target: i8) -> Picked
    requires { NearestTable table.now }
    ensures { result ≡ picked prev target }
{
    if prev < -94 || 106 < prev {
        let nibble = nearest_of_all(prev, target);
        let sample = fib_step(prev, nibble);
        return Picked { nibble, sample };
    }
    let near = nearest_step(table, difference(target, prev));
    let nibble = near.nibble;
    let sample = sample_sum(prev, near.delta);
    Picked { nibble, sample }
}
