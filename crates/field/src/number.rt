// Big-endian numbers of 16 and 32 bits.
ghost use Rattle.std.specs.Prelude.{◌≡◌, ◌+◌, ◌^◌, ◌<◌, ◌≤◌, length, drop};
ghost use Rattle.laws.specs.Put.{Put};
ghost use Rattle.field.specs.BigEndian.{big_endian, big_endian_bytes};
ghost use Rattle.field.specs.Signed.{signed32};

use crate::signed::i32_of_bits;
use crate::store::put_all;

// The two bytes from `at` on.
pub fn read16(s: &[u8], at: usize) -> u16
    requires { at + 2 ≤ length s.now }
    ensures { result ≡ big_endian 2 (drop at s.now) }
{
    u16::from_be_bytes([s[at], s[at + 1]])
}

// The four bytes from `at` on.
pub fn read32(s: &[u8], at: usize) -> u32
    requires { at + 4 ≤ length s.now }
    ensures { result ≡ big_endian 4 (drop at s.now) }
{
    u32::from_be_bytes([s[at], s[at + 1], s[at + 2], s[at + 3]])
}

// The four bytes from `at` on, as a signed number.
pub fn read_i32(s: &[u8], at: usize) -> i32
    requires { at + 4 ≤ length s.now }
    ensures { result ≡ signed32 (big_endian 4 (drop at s.now)) }
{
    i32_of_bits(read32(s, at))
}

// The two bytes of v, stored from `at` on; the place past them.
pub fn put16(d: &mut [u8], at: usize, v: u16) -> usize
    requires { at + 2 < 2 ^ 63 }
    ensures { Put d.old at (big_endian_bytes 2 v) d.new result }
{
    put_all(&u16::to_be_bytes(v), d, at)
}

// The four bytes of v, stored from `at` on; the place past them.
pub fn put32(d: &mut [u8], at: usize, v: u32) -> usize
    requires { at + 4 < 2 ^ 63 }
    ensures { Put d.old at (big_endian_bytes 4 v) d.new result }
{
    put_all(&u32::to_be_bytes(v), d, at)
}

// The four bytes of v.
pub fn bytes32(v: u32) -> [u8; 4]
    ensures { result ≡ big_endian_bytes 4 v }
{
    v.to_be_bytes()
}
