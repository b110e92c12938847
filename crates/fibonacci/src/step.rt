// One step of the code.
ghost use Rattle.std.specs.Prelude.{◌≡◌, ◌<◌, pos, ◌-ℤ◌, get_or};
ghost use Rattle.fibonacci.specs.Step.{deltas, fib_step};

use field::sample_sum;

const DELTAS: [i8; 16] = [-34, -21, -13, -8, -5, -3, -2, -1, 0, 1, 2, 3, 5, 8, 13, 21];

// A nibble's delta.
fn delta(nibble: u8) -> i8
    requires { nibble < 16 }
    ensures { result ≡ get_or deltas nibble (pos 0) }
{
    let i = nibble as usize;
    DELTAS[i]
}

// By how much a is above b.
pub(crate) fn difference(a: i8, b: i8) -> i16
    ensures { result ≡ a -ℤ b }
{
    a as i16 - b as i16
}

// The sample that follows `prev` by a nibble.
pub fn fib_step(prev: i8, nibble: u8) -> i8
    requires { nibble < 16 }
    ensures { result ≡ fib_step prev nibble }
{
    sample_sum(prev, delta(nibble))
}
