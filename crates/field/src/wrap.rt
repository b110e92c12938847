// Sums and differences of samples in a signed byte, which wrap: 127 and 1 make -128, and -128 less 1 is 127.
ghost use Rattle.std.specs.Prelude.{◌≡◌, ◌+ℤ◌, ◌-ℤ◌};
ghost use Rattle.field.specs.Wrap.{to_sample};

// The sum of two samples.
pub fn sample_sum(a: i8, b: i8) -> i8
    ensures { result ≡ to_sample (a +ℤ b) }
{
    a.wrapping_add(b)
}

// The first sample less the second.
pub fn sample_difference(a: i8, b: i8) -> i8
    ensures { result ≡ to_sample (a -ℤ b) }
{
    a.wrapping_sub(b)
}
