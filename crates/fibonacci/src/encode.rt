// A channel written.
ghost use Rattle.std.specs.Prelude.{◌≡◌, ◌+◌, ◌/◌, ◌≤◌, length};
ghost use Rattle.laws.specs.Buffer.{written};
ghost use Rattle.refusal.specs.Outcome.{answer, buffer_after};
ghost use Rattle.std.specs.Prelude.{Ok};
ghost use Rattle.fibonacci.specs.Encode.{fib_bytes};
ghost use Rattle.fibonacci.specs.Helpers.{NearestTable, packed_pair};

use crate::pick::{NEAREST, fib_pick_nibble};
use refusal::Refusal;

// Two nibbles in a byte, and the sample that the decoder has after them.
#[derive(Clone, Copy)]
struct PackedPair {
    byte: u8,
    last: i8,
}

// The byte for two samples that follow `prev`.
fn pack_pair(table: &[u8], prev: i8, a: i8, b: i8) -> PackedPair
    requires { NearestTable table.now }
    ensures { result ≡ packed_pair prev a b }
{
    let high = fib_pick_nibble(table, prev, a);
    let low = fib_pick_nibble(table, high.sample, b);
    let byte = high.nibble * 16 + low.nibble;
    let last = low.sample;
    PackedPair { byte, last }
}

// The bytes of at least one sample, at the front of `out`.
fn encode_samples(table: &[u8], samples: &[i8], out: &mut [u8])
    requires { NearestTable table.now × (1 ≤ length samples.now) × (2 + length samples.now / 2 ≤ length out.old) }
    ensures { out.new ≡ written (fib_bytes samples.now) out.old }
{
    let n = samples.len();
    let mut prev = samples[0];
    out[0] = 0;
    out[1] = field::byte_of_sample(prev);
    let pairs = (n - 1) / 2;
    for j in 0..pairs {
        let p = pack_pair(table, prev, samples[2 * j + 1], samples[2 * j + 2]);
        out[2 + j] = p.byte;
        prev = p.last;
    }
    if n % 2 == 0 {
        let picked = fib_pick_nibble(table, prev, samples[n - 1]);
        out[2 + pairs] = picked.nibble * 16 + 8;
    }
}

// A channel's samples as bytes; 20 where they don't fit.
pub fn fibonacci_encode_channel(samples: &[i8], out: &mut [u8]) -> Result<usize, Refusal>
    ensures result { result ≡ answer (Ok (fib_bytes samples.now)) (length out.old) }
    ensures buffer { out.new ≡ buffer_after (Ok (fib_bytes samples.now)) out.old }
{
    let n = samples.len();
    let length = 2 + n / 2;
    if out.len() < length {
        return Err(Refusal::BufferShort);
    }
    if n == 0 {
        out[0] = 0;
        out[1] = 0;
        return Ok(length);
    }
    encode_samples(&NEAREST, samples, out);
    Ok(length)
}
