// A channel read.
ghost use Rattle.std.specs.Prelude.{◌≡◌, ◌≤◌, length, take};
ghost use Rattle.laws.specs.Buffer.{written};
ghost use Rattle.refusal.specs.Outcome.{answer, buffer_after};
ghost use Rattle.fibonacci.specs.Decode.{fib_samples, fib_channel};

use crate::step::fib_step;
use refusal::Refusal;

// The first n samples of a channel, at the front of `out`. A byte gives two, so there may be half of one at the end.
pub fn decode_first(body: &[u8], out: &mut [i8], n: usize)
    requires { (2 ≤ length body.now) × (n ≤ length (fib_samples body.now)) × (n ≤ length out.old) }
    ensures { out.new ≡ written (take n (fib_samples body.now)) out.old }
{
    if n == 0 {
        return;
    }
    let mut prev = field::sample_of_byte(body[1]);
    out[0] = prev;
    let pairs = (n - 1) / 2;
    for j in 0..pairs {
        let b = body[2 + j];
        let high = fib_step(prev, b / 16);
        let low = fib_step(high, b % 16);
        out[2 * j + 1] = high;
        out[2 * j + 2] = low;
        prev = low;
    }
    if n % 2 == 0 {
        out[n - 1] = fib_step(prev, body[2 + pairs] / 16);
    }
}

// All samples of a channel. 12 for under 2 bytes, 20 where they don't fit.
pub fn fibonacci_decode_channel(body: &[u8], out: &mut [i8]) -> Result<usize, Refusal>
    ensures result { result ≡ answer (fib_channel body.now) (length out.old) }
    ensures buffer { out.new ≡ buffer_after (fib_channel body.now) out.old }
{
    if body.len() < 2 {
        return Err(Refusal::ChannelShort);
    }
    let n = 2 * (body.len() - 2) + 1;
    if out.len() < n {
        return Err(Refusal::BufferShort);
    }
    decode_first(body, out, n);
    Ok(n)
}
