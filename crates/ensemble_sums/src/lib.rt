// Sums of 16-bit values, in 32 bits, held to 16 bits again once all is added.
#![tactic(auto)]

ghost use Rattle.std.specs.Prelude.{◌≡◌, map, ℕ, ◌+◌, ◌≤◌, ◌^◌, pos, length, replicate};
ghost use Rattle.ensemble_sums.specs.Sums.{held_to16, added_to, Within};

// Adds the first n values to the first n sums. No sum grows by more than a value of 16 bits.
pub fn add_values(values: &[i16], n: usize, sums: &mut [i32])
    requires { (n ≤ length values.now) × (n ≤ length sums.old) × Within (2 ^ 30) sums.old }
    ensures sums { sums.new ≡ added_to sums.old n values.now }
    ensures small { (b : ℕ) → Within b sums.old → Within (b + 32768) sums.new }
{
    // not a `zip` with `sums.iter_mut()`: nothing is proved of what such a loop writes
    let added = &values[..n];
    for (i, value) in added.iter().enumerate() {
        sums[i] += *value as i32;
    }
}

// A sum, held within 16 bits.
#[tactic(auto, using(crate::proofs::SumLaws::clamped), unfolding(crate::specs::Sums::held_to16))]
fn held(sum: i32) -> i16
    ensures { result ≡ held_to16 sum }
{
    sum.clamp(-32768, 32767) as i16
}

// Writes each sum, held, and leaves the sums at 0 for the next stretch.
pub fn put_held(sums: &mut [i32], out: &mut [i16])
    requires { length sums.old ≡ length out.old }
    ensures out { out.new ≡ map held_to16 sums.old }
    ensures sums { sums.new ≡ replicate (length sums.old) (pos 0) }
{
    for (i, sum) in sums.iter().enumerate() {
        out[i] = held(*sum);
    }
    sums.fill(0);
}
