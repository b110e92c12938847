// How many samples the sides have.
ghost use Rattle.std.specs.Prelude.{◌≡◌};
ghost use Rattle.samples.specs.Stream.{stream};
ghost use Rattle.samples.specs.Halves.{uneven};
ghost use Rattle.body_read.specs.Sides.{channel_samples, one_side, two_sides, body_sides, lengths_suit};
ghost use Rattle.body_read.specs.Answers.{side_lengths_of};
ghost use Rattle.body_read.specs.Helpers.{sample_count_of, kept_of};

use header::{Compression, VoiceHeader};
use refusal::Refusal;
use samples::left_half;

// How many samples the left and the right side have.
#[derive(Clone, Copy, Debug, PartialEq, Eq)]
pub struct SideLengths {
    pub left: usize,
    pub right: usize,
}

// The samples of a channel's stream; 12 for a Fibonacci channel under 2 bytes.
fn stream_length(c: Compression, bytes: &[u8]) -> Result<usize, Refusal>
    ensures { result ≡ sample_count_of (stream c bytes.now) }
{
    let n = bytes.len();
    match c {
        Compression::None => Ok(n),
        Compression::Fibonacci => {
            if n < 2 {
                return Err(Refusal::ChannelShort);
            }
            let samples = 2 * (n - 2) + 1;
            Ok(samples)
        }
    }
}

// How many of a stream's n samples are kept; 13 for a total past 64 bits, 14 where the stream is shorter than the total.
fn kept_length(h: VoiceHeader, n: usize) -> Result<usize, Refusal>
    ensures { result ≡ kept_of h n }
{
    let need = h.total_samples_per_channel()? as usize;
    if h.hi_octave_samples() == 0 {
        return Ok(n);
    }
    if n < need {
        return Err(Refusal::SamplesShort);
    }
    Ok(need)
}

// The samples of a channel; 12, 13, 14 in that order.
pub(crate) fn channel_length(h: VoiceHeader, c: Compression, bytes: &[u8]) -> Result<usize, Refusal>
    ensures { result ≡ sample_count_of (channel_samples h c bytes.now) }
{
    let n = stream_length(c, bytes)?;
    kept_length(h, n)
}

// A Fibonacci BODY of odd length has no two halves.
pub(crate) fn is_uneven(c: Compression, body: &[u8]) -> bool
    ensures { result ≡ uneven c body.now }
{
    match c {
        Compression::None => false,
        Compression::Fibonacci => body.len() % 2 == 1,
    }
}

fn one_length(h: VoiceHeader, c: Compression, body: &[u8]) -> Result<SideLengths, Refusal>
    ensures { result ≡ side_lengths_of (one_side h c body.now) }
{
    let left = channel_length(h, c, body)?;
    Ok(SideLengths { left, right: 0 })
}

// The halves of BODY are of one length, so the left one speaks for both.
fn two_lengths(h: VoiceHeader, c: Compression, body: &[u8]) -> Result<SideLengths, Refusal>
    ensures { result ≡ side_lengths_of (two_sides h c body.now) }
{
    if is_uneven(c, body) {
        return Err(Refusal::OddHalves);
    }
    let n = channel_length(h, c, left_half(body))?;
    Ok(SideLengths { left: n, right: n })
}

// The lengths of the sides that BODY gives; 10 to 14, lowest first.
pub fn side_lengths(h: VoiceHeader, stereo: bool, body: &[u8]) -> Result<SideLengths, Refusal>
    ensures { result ≡ side_lengths_of (body_sides h stereo body.now) }
{
    let c = h.compression()?;
    if stereo {
        return two_lengths(h, c, body);
    }
    one_length(h, c, body)
}

// That a left and a right length suit a header.
pub fn is_suited(h: VoiceHeader, stereo: bool, left: usize, right: usize) -> bool
    ensures { result ≡ lengths_suit h stereo left right }
{
    if stereo {
        if right != left {
            return false;
        }
    } else if right != 0 {
        return false;
    }
    if h.hi_octave_samples() == 0 {
        return true;
    }
    match h.total_samples_per_channel() {
        Ok(total) => left == total as usize,
        Err(_) => false,
    }
}
