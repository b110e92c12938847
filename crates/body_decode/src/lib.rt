// A whole BODY decoded to interleaved bytes.
#![tactic(auto)]

ghost use Rattle.std.specs.Prelude.{◌≡◌, ◌+◌, ◌≤◌, ◌<◌, length, take, drop, get_or};
ghost use Rattle.laws.specs.Buffer.{written};
ghost use Rattle.refusal.specs.Outcome.{answer, buffer_after};
ghost use Rattle.header.specs.declared.compression.Compression.TheVariants.{None, Fibonacci};
ghost use Rattle.fibonacci.specs.Step.{fib_step};
ghost use Rattle.fibonacci.specs.Decode.{nibbles, fib_samples};
ghost use Rattle.laws.specs.Turns.{by_turns};
ghost use Rattle.body_decode.specs.Body.{frame_bytes, one_channel, two_channels, decoded_body};

use fibonacci::fib_step;
use header::{Compression, known_compression};
use refusal::Refusal;
use samples::{left_half, right_half};

// Nibble m of a channel, the high one of a byte first; 0 past the end.
fn nibble_at(body: &[u8], m: usize) -> u8
    ensures { (result < 16) × (result ≡ get_or (nibbles (drop 2 body.now)) m 0) }
{
    let k = 2 + m / 2;
    if body.len() <= k {
        return 0;
    }
    let b = body[k];
    if m % 2 == 0 { b / 16 } else { b % 16 }
}

// The sample after sample i of a channel, which is `prev`.
fn next_sample(body: &[u8], prev: i8, i: usize) -> i8
    ensures { result ≡ fib_step prev (get_or (nibbles (drop 2 body.now)) i 0) }
{
    fib_step(prev, nibble_at(body, i))
}

// The first n bytes. Byte by byte, as the compiler copies them in blocks: with `copy_from_slice` the archive asks its host for `memmove`.
fn copy_bytes(body: &[u8], out: &mut [u8], n: usize)
    requires { (n ≤ length body.now) × (n ≤ length out.old) }
    ensures { out.new ≡ written (take n body.now) out.old }
{
    for i in 0..n {
        out[i] = body[i];
    }
}

// The first n bytes of both sides, left and right by turns.
fn interleave_bytes(left: &[u8], right: &[u8], out: &mut [u8], n: usize)
    requires { (n ≤ length left.now) × (n ≤ length right.now) × (n + n ≤ length out.old) }
    ensures { out.new ≡ written (by_turns (take n left.now) (take n right.now)) out.old }
{
    for i in 0..n {
        out[i + i] = left[i];
        out[i + i + 1] = right[i];
    }
}

// The first n samples of a Fibonacci channel, as bytes.
fn copy_fibonacci(body: &[u8], out: &mut [u8], n: usize)
    requires { (2 ≤ length body.now) × (n ≤ length (fib_samples body.now)) × (n ≤ length out.old) }
    ensures { out.new ≡ written (frame_bytes n (fib_samples body.now)) out.old }
{
    let mut prev = field::sample_of_byte(body[1]);
    for i in 0..n {
        out[i] = field::byte_of_sample(prev);
        prev = next_sample(body, prev, i);
    }
}

// The first n samples of two Fibonacci channels, as bytes, left and right by turns.
fn interleave_fibonacci(left: &[u8], right: &[u8], out: &mut [u8], n: usize)
    requires { (2 ≤ length left.now) × (2 ≤ length right.now) × (n ≤ length (fib_samples left.now)) × (n ≤ length (fib_samples right.now)) × (n + n ≤ length out.old) }
    ensures { out.new ≡ written (by_turns (frame_bytes n (fib_samples left.now)) (frame_bytes n (fib_samples right.now))) out.old }
{
    let mut a = field::sample_of_byte(left[1]);
    let mut b = field::sample_of_byte(right[1]);
    for i in 0..n {
        out[i + i] = field::byte_of_sample(a);
        out[i + i + 1] = field::byte_of_sample(b);
        a = next_sample(left, a, i);
        b = next_sample(right, b, i);
    }
}

fn one_raw(body: &[u8], frames: usize, out: &mut [u8]) -> Result<usize, Refusal>
    ensures result { result ≡ answer (one_channel None frames body.now) (length out.old) }
    ensures buffer { out.new ≡ buffer_after (one_channel None frames body.now) out.old }
{
    let n = frames.min(body.len());
    if out.len() < n {
        return Err(Refusal::BufferShort);
    }
    copy_bytes(body, out, n);
    Ok(n)
}

fn one_fibonacci(body: &[u8], frames: usize, out: &mut [u8]) -> Result<usize, Refusal>
    ensures result { result ≡ answer (one_channel Fibonacci frames body.now) (length out.old) }
    ensures buffer { out.new ≡ buffer_after (one_channel Fibonacci frames body.now) out.old }
{
    if body.len() < 2 {
        return Err(Refusal::ChannelShort);
    }
    let available = 2 * (body.len() - 2) + 1;
    let n = frames.min(available);
    if out.len() < n {
        return Err(Refusal::BufferShort);
    }
    copy_fibonacci(body, out, n);
    Ok(n)
}

fn two_raw(body: &[u8], frames: usize, out: &mut [u8]) -> Result<usize, Refusal>
    ensures result { result ≡ answer (two_channels None frames body.now) (length out.old) }
    ensures buffer { out.new ≡ buffer_after (two_channels None frames body.now) out.old }
{
    let n = frames.min(body.len() / 2);
    let length = n + n;
    if out.len() < length {
        return Err(Refusal::BufferShort);
    }
    interleave_bytes(left_half(body), right_half(body), out, n);
    Ok(length)
}

fn two_fibonacci(body: &[u8], frames: usize, out: &mut [u8]) -> Result<usize, Refusal>
    ensures result { result ≡ answer (two_channels Fibonacci frames body.now) (length out.old) }
    ensures buffer { out.new ≡ buffer_after (two_channels Fibonacci frames body.now) out.old }
{
    if body.len() % 2 == 1 {
        return Err(Refusal::OddHalves);
    }
    let half = body.len() / 2;
    if half < 2 {
        return Err(Refusal::ChannelShort);
    }
    let available = 2 * (half - 2) + 1;
    let n = frames.min(available);
    let length = n + n;
    if out.len() < length {
        return Err(Refusal::BufferShort);
    }
    interleave_fibonacci(left_half(body), right_half(body), out, n);
    Ok(length)
}

fn decode_one(body: &[u8], c: Compression, frames: usize, out: &mut [u8]) -> Result<usize, Refusal>
    ensures result { result ≡ answer (one_channel c frames body.now) (length out.old) }
    ensures buffer { out.new ≡ buffer_after (one_channel c frames body.now) out.old }
{
    match c {
        Compression::None => one_raw(body, frames, out),
        Compression::Fibonacci => one_fibonacci(body, frames, out),
    }
}

fn decode_two(body: &[u8], c: Compression, frames: usize, out: &mut [u8]) -> Result<usize, Refusal>
    ensures result { result ≡ answer (two_channels c frames body.now) (length out.old) }
    ensures buffer { out.new ≡ buffer_after (two_channels c frames body.now) out.old }
{
    match c {
        Compression::None => two_raw(body, frames, out),
        Compression::Fibonacci => two_fibonacci(body, frames, out),
    }
}

// BODY as interleaved bytes, at most `frames` of each channel, given the compression as its header byte. 0 channels count as
// 1, more than 2 as 2. Refused by 10, 11, 12 and 20, in that order.
pub fn decode_body(
    body: &[u8],
    compression: u8,
    channels: u16,
    frames: usize,
    out: &mut [u8],
) -> Result<usize, Refusal>
    ensures result { result ≡ answer (decoded_body compression channels frames body.now) (length out.old) }
    ensures buffer { out.new ≡ buffer_after (decoded_body compression channels frames body.now) out.old }
{
    let c = known_compression(compression)?;
    if 1 < channels {
        return decode_two(body, c, frames, out);
    }
    decode_one(body, c, frames, out)
}
