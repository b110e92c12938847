// A whole channel, octave by octave.
ghost use Rattle.std.specs.Prelude.{◌≡◌, true, false, ◌+◌, ◌^◌, ◌<◌, List, ℤ, length};
ghost use Rattle.header.specs.Octaves.{hi};
ghost use Rattle.body_read.specs.Sides.{lengths_suit};
ghost use Rattle.refusal.specs.Outcome.{answer, buffer_after};
ghost use Rattle.refusal.specs.Rules.{first_holding};
ghost use Rattle.vault.specs.DifferenceOrder.{channel_rules, each_octave, by_octave, difference_order, difference_restore};

use crate::octave::{Conversion, Order, Restore};
use body_read::is_suited;
use header::VoiceHeader;
use refusal::Refusal;

// The first rule that turns a channel of n samples back.
fn channel_refusal(h: VoiceHeader, n: usize) -> Result<(), Refusal>
    ensures { result ≡ first_holding (channel_rules h n) }
{
    h.total_samples_per_channel()?;
    if is_suited(h, false, n, 0) {
        return Ok(());
    }
    Err(Refusal::SampleLengths)
}

// Where the octave ends that begins at a place: it is longer than those before it together by the length of the highest.
fn octave_end(h: VoiceHeader, at: usize) -> usize
    requires { at + (at + hi h) < 2 ^ 64 }
    ensures { result ≡ at + (at + hi h) }
{
    let length = at + h.hi_octave_samples() as usize;
    at + length
}

// All octaves of a channel that suits the header.
fn convert_octaves<C: Conversion>(h: VoiceHeader, channel: &[i8], out: &mut [i8])
    requires { (lengths_suit h false (length channel.now) 0 ≡ true) × (length out.old ≡ length channel.now) }
    ensures { out.new ≡ each_octave C.converted h channel.now }
{
    if h.hi_octave_samples() == 0 {
        return C::convert(channel, out);
    }
    let n = channel.len();
    let mut at = 0;
    // by places: each octave is longer than the one before, and the library cuts parts of one length only
    while at < n {
        let end = octave_end(h, at);
        C::convert(&channel[at..end], &mut out[at..end]);
        at = end;
    }
}

// A channel the one way or the other. 13, 18, 20 in that order.
fn convert_channel<C: Conversion>(
    h: VoiceHeader,
    channel: &[i8],
    out: &mut [i8],
) -> Result<usize, Refusal>
    requires { (octave : List ℤ) → length (C.converted octave) ≡ length octave }
    ensures result { result ≡ answer (by_octave C.converted h channel.now) (length out.old) }
    ensures buffer { out.new ≡ buffer_after (by_octave C.converted h channel.now) out.old }
{
    let n = channel.len();
    channel_refusal(h, n)?;
    if out.len() < n {
        return Err(Refusal::BufferShort);
    }
    convert_octaves::<C>(h, channel, &mut out[..n]);
    Ok(n)
}

// A channel in difference order, octave by octave: the first sample as it is, then each less the one before, and of these values those at
// even places before those at odd ones.
pub fn difference_order(h: VoiceHeader, samples: &[i8], out: &mut [i8]) -> Result<usize, Refusal>
    ensures result { result ≡ answer (difference_order h samples.now) (length out.old) }
    ensures buffer { out.new ≡ buffer_after (difference_order h samples.now) out.old }
{
    convert_channel::<Order>(h, samples, out)
}

// The channel that these values are the difference order of.
pub fn difference_restore(h: VoiceHeader, values: &[i8], out: &mut [i8]) -> Result<usize, Refusal>
    ensures result { result ≡ answer (difference_restore h values.now) (length out.old) }
    ensures buffer { out.new ≡ buffer_after (difference_restore h values.now) out.old }
{
    convert_channel::<Restore>(h, values, out)
}
