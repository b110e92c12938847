// Little-endian numbers of 16 and 32 bits.
ghost use Rattle.std.specs.Prelude.{◌+◌, ◌^◌, ◌<◌};
ghost use Rattle.laws.specs.Put.{Put};
ghost use Rattle.field.specs.LittleEndian.{little_endian_bytes};

use crate::store::put_all;

// The two bytes of v, stored from `at` on; the place past them.
pub fn put16_le(d: &mut [u8], at: usize, v: u16) -> usize
    requires { at + 2 < 2 ^ 63 }
    ensures { Put d.old at (little_endian_bytes 2 v) d.new result }
{
    put_all(&u16::to_le_bytes(v), d, at)
}

// The four bytes of v, stored from `at` on; the place past them.
pub fn put32_le(d: &mut [u8], at: usize, v: u32) -> usize
    requires { at + 4 < 2 ^ 63 }
    ensures { Put d.old at (little_endian_bytes 4 v) d.new result }
{
    put_all(&u32::to_le_bytes(v), d, at)
}
