// The nearest of all sixteen nibbles. Each has a key, and the least key alone tells which it is: a minimum without a branch, for which a
// processor can look at many keys at once.
ghost use Rattle.std.specs.Prelude.{◌≡◌, ◌+◌, ◌*◌, ◌<◌, nat_abs, ◌+ℤ◌, ◌-ℤ◌};
ghost use Rattle.field.specs.Wrap.{to_sample};
ghost use Rattle.fibonacci.specs.Pick.{fib_pick};
ghost use Rattle.fibonacci.specs.Helpers.{by_size, DeltasBySize, key_at, least_of};

use field::sample_sum;

// The deltas by their size, the smallest first, and of two as large that of the lower nibble.
const BY_SIZE: [i8; 16] = [0, -1, 1, -2, 2, -3, 3, -5, 5, -8, 8, -13, 13, -21, 21, -34];

// The nibble at a place of that order.
fn nibble_by_size(i: u8) -> u8
    requires { i < 16 }
    ensures { result ≡ by_size i }
{
    if i % 2 == 0 {
        return 8 + i / 2;
    }
    7 - i / 2
}

// What the nibble at a place of that order is judged by: how far from the target it leads, and below that, for those as near, its place.
fn key(prev: i8, target: i8, delta: i8, place: u16) -> u16
    requires { place < 16 }
    ensures { result ≡ nat_abs (to_sample (prev +ℤ delta) -ℤ target) * 16 + place }
{
    sample_sum(prev, delta).abs_diff(target) as u16 * 16 + place
}

// The least of the sixteen keys.
fn least_key(deltas: &[i8], prev: i8, target: i8) -> u16
    requires { DeltasBySize deltas.now }
    ensures { result ≡ least_of (key_at prev target) 16 }
{
    let mut least: u16 = 4096;
    for (i, delta) in deltas.iter().enumerate() {
        least = least.min(key(prev, target, *delta, i as u16));
    }
    least
}

// The nibble that is written for the target.
pub(crate) fn nearest_of_all(prev: i8, target: i8) -> u8
    ensures { result ≡ fib_pick prev target }
{
    let least = least_key(&BY_SIZE, prev, target);
    nibble_by_size((least % 16) as u8)
}
