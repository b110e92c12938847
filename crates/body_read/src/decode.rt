// The samples of the sides.
ghost use Rattle.std.specs.Prelude.{◌≡◌, ◌≤◌, length, take};
ghost use Rattle.laws.specs.Buffer.{written};
ghost use Rattle.refusal.specs.Outcome.{answer, buffer_after};
ghost use Rattle.body_read.specs.Sides.{channel_samples, two_sides, body_sides};
ghost use Rattle.body_read.specs.Answers.{SidesFit, left_after, right_after};
ghost use Rattle.body_read.specs.Helpers.{stream_samples, StreamHas};

use crate::lengths::{channel_length, is_uneven};
use fibonacci::decode_first;
use header::{Compression, VoiceHeader};
use refusal::Refusal;
use samples::{decode_raw, left_half, right_half};

// The first n samples of a channel's stream.
fn decode_stream(c: Compression, bytes: &[u8], out: &mut [i8], n: usize)
    requires { StreamHas c bytes.now n × (n ≤ length out.old) }
    ensures { out.new ≡ written (take n (stream_samples c bytes.now)) out.old }
{
    match c {
        Compression::None => {
            let _ = decode_raw(&bytes[..n], out);
        }
        Compression::Fibonacci => {
            decode_first(bytes, out, n);
        }
    }
}

// The samples of a channel; 12, 13, 14, then 20 where they don't fit.
fn decode_channel(
    h: VoiceHeader,
    c: Compression,
    bytes: &[u8],
    out: &mut [i8],
) -> Result<usize, Refusal>
    ensures result { result ≡ answer (channel_samples h c bytes.now) (length out.old) }
    ensures buffer { out.new ≡ buffer_after (channel_samples h c bytes.now) out.old }
{
    let n = channel_length(h, c, bytes)?;
    if out.len() < n {
        return Err(Refusal::BufferShort);
    }
    decode_stream(c, bytes, out, n);
    Ok(n)
}

fn decode_two(h: VoiceHeader, c: Compression, body: &[u8], left: &mut [i8], right: &mut [i8])
    requires { SidesFit (two_sides h c body.now) (length left.old) (length right.old) }
    ensures left { left.new ≡ left_after (two_sides h c body.now) left.old }
    ensures right { right.new ≡ right_after (two_sides h c body.now) right.old }
{
    if is_uneven(c, body) {
        return;
    }
    let _ = decode_channel(h, c, left_half(body), left);
    let _ = decode_channel(h, c, right_half(body), right);
}

// Both sides' samples, at the front of their buffers.
pub fn decode_sides(h: VoiceHeader, stereo: bool, body: &[u8], left: &mut [i8], right: &mut [i8])
    requires { SidesFit (body_sides h stereo body.now) (length left.old) (length right.old) }
    ensures left { left.new ≡ left_after (body_sides h stereo body.now) left.old }
    ensures right { right.new ≡ right_after (body_sides h stereo body.now) right.old }
{
    let Ok(c) = h.compression() else {
        return;
    };
    if stereo {
        decode_two(h, c, body, left, right);
        return;
    }
    let _ = decode_channel(h, c, body, left);
}
