// A volume as a float: rounded to 24 binary digits in integers, nearest, ties to even, cast with no loss, and divided
// once, exactly.
#![tactic(auto)]

ghost use Rattle.std.specs.Prelude.{◌≡◌};
ghost use Rattle.header_volume.specs.Volume.{lowest_digit, kept_digits, volume_float};

use std::cmp::Ordering;

// The place value of the lowest digit that is kept: 1, or 2^k where the number has 24 + k digits.
fn lowest_digit(volume: u32) -> u32
    ensures { result ≡ lowest_digit volume }
{
    1 << 8u32.saturating_sub(volume.leading_zeros())
}

// The volume in multiples of that, to the nearest, a tie to the even one.
fn kept_digits(volume: u32) -> u32
    ensures { result ≡ kept_digits volume }
{
    let u = lowest_digit(volume);
    let q = volume / u;
    let twice = volume % u * 2;
    match twice.cmp(&u) {
        Ordering::Less => q,
        Ordering::Equal => q + q % 2,
        Ordering::Greater => q + 1,
    }
}

// A 16.16 volume as a float: 65,536 is 1.0.
pub fn volume_f32(volume: u32) -> f32
    ensures { result ≡ volume_float volume }
{
    let u = lowest_digit(volume);
    let q = kept_digits(volume);
    let d = 65536 / u;
    q as f32 / d as f32
}
