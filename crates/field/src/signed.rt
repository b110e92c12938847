// The same bits as unsigned and as signed numbers.
ghost use Rattle.std.specs.Prelude.{◌≡◌};
ghost use Rattle.field.specs.Signed.{sample_of, byte_of, signed32, bits32};

// A byte read as a sample.
pub fn sample_of_byte(b: u8) -> i8
    ensures { result ≡ sample_of b }
{
    b.cast_signed()
}

// The byte that stands for a sample.
pub fn byte_of_sample(s: i8) -> u8
    ensures { result ≡ byte_of s }
{
    s.cast_unsigned()
}

// 32 bits read as a signed number.
pub fn i32_of_bits(x: u32) -> i32
    ensures { result ≡ signed32 x }
{
    x.cast_signed()
}

// The 32 bits of a signed number.
pub fn bits_of_i32(z: i32) -> u32
    ensures { result ≡ bits32 z }
{
    z.cast_unsigned()
}
