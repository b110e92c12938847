// BODY written: how long it is, and its bytes as a chunk.
#![tactic(auto)]

ghost use Rattle.std.specs.Prelude.{◌≡◌, ◌+◌, ◌^◌, ◌≤◌, ◌<◌, length};
ghost use Rattle.laws.specs.Put.{Put};
ghost use Rattle.chunk.specs.ChunkBytes.{chunk_bytes};
ghost use Rattle.form.specs.Names.{body};
ghost use Rattle.body_write.specs.BodyBytes.{channel_bytes, body_bytes};

use chunk::{put_head, put_pad};
use fibonacci::fibonacci_encode_channel;
use header::Compression;
use samples::encode_raw;

// The bytes of a channel.
fn channel_length(c: Compression, samples: &[i8]) -> usize
    requires { length samples.now < 2 ^ 34 }
    ensures { (result ≡ length (channel_bytes c samples.now)) × (result < 2 ^ 35) }
{
    let n = samples.len();
    match c {
        Compression::None => n,
        Compression::Fibonacci => 2 + n / 2,
    }
}

// The bytes of BODY.
pub fn body_length(c: Compression, stereo: bool, left: &[i8], right: &[i8]) -> usize
    requires { (length left.now < 2 ^ 34) × (length right.now < 2 ^ 34) }
    ensures { (result ≡ length (body_bytes c stereo left.now right.now)) × (result < 2 ^ 36) }
{
    let n = channel_length(c, left);
    if stereo {
        return n + channel_length(c, right);
    }
    n
}

// A channel's bytes from a place on; the place past them.
fn put_channel(c: Compression, samples: &[i8], d: &mut [u8], at: usize) -> usize
    requires { (length samples.now < 2 ^ 34) × (at + length (channel_bytes c samples.now) ≤ length d.old) }
    ensures { Put d.old at (channel_bytes c samples.now) d.new result }
{
    let end = at + channel_length(c, samples);
    match c {
        Compression::None => {
            let _ = encode_raw(samples, &mut d[at..]);
        }
        Compression::Fibonacci => {
            let _ = fibonacci_encode_channel(samples, &mut d[at..]);
        }
    }
    end
}

// The channels' bytes from a place on; the place past them.
fn put_channels(
    c: Compression,
    stereo: bool,
    left: &[i8],
    right: &[i8],
    d: &mut [u8],
    at: usize,
) -> usize
    requires { (length left.now < 2 ^ 34) × (length right.now < 2 ^ 34) × (at + length (body_bytes c stereo left.now right.now) ≤ length d.old) }
    ensures { Put d.old at (body_bytes c stereo left.now right.now) d.new result }
{
    let o = put_channel(c, left, d, at);
    if stereo {
        return put_channel(c, right, d, o);
    }
    o
}

// The chunk BODY from a place on; the place past it. The samples need room; a pad that doesn't fit is passed over.
pub fn put_body(
    c: Compression,
    stereo: bool,
    left: &[i8],
    right: &[i8],
    d: &mut [u8],
    at: usize,
) -> usize
    requires { (length left.now < 2 ^ 34) × (length right.now < 2 ^ 34) × (at < 2 ^ 61) × (at + 8 + length (body_bytes c stereo left.now right.now) ≤ length d.old) }
    ensures { Put d.old at (chunk_bytes body (body_bytes c stereo left.now right.now)) d.new result }
{
    let n = body_length(c, stereo, left, right);
    let o = put_head(form::BODY, n, d, at);
    let p = put_channels(c, stereo, left, right, d, o);
    put_pad(n, d, p)
}
