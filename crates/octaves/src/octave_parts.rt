// An octave of a side, and the two parts of an octave.
ghost use Rattle.std.specs.Prelude.{◌≡◌, length};
ghost use Rattle.octaves.specs.Part.{part_of, part_at};
ghost use Rattle.octaves.specs.Octave.{octave_part, repeat_start, repeat_from, one_shot_part, repeat_part};

use crate::part::{Part, part_of};
use header::VoiceHeader;

// Where octave k lies in the samples of a side. Its end is compared by a quotient, to stay within 64 bits.
pub fn octave_part(h: VoiceHeader, samples: usize, k: u8) -> Option<Part>
    ensures { result ≡ octave_part h samples k }
{
    let hi = h.hi_octave_samples() as usize;
    if hi == 0 {
        if k == 0 {
            return Some(Part {
                start: 0,
                length: samples,
            });
        }
        return None;
    }
    if 63 < k {
        return None;
    }
    if h.ct_octave <= k {
        if 1 <= k {
            return None;
        }
    }
    let length: usize = 1 << k;
    let before = length - 1;
    let through = length + before;
    if samples / through < hi {
        return None;
    }
    let start = hi * before;
    let n = hi * length;
    Some(Part { start, length: n })
}

// Octave k of a side's samples.
pub fn octave<'a>(h: VoiceHeader, samples: &'a [i8], k: u8) -> &'a [i8]
    ensures contents { result.now ≡ part_of (octave_part h (length samples.now) k) samples.now }
    ensures place { result.ref_ptr ≡ part_at (octave_part h (length samples.now) k) samples.entry.ref_ptr }
{
    part_of(samples, octave_part(h, samples.len(), k))
}

// Where the repeat part begins in an octave k of n samples, or that its length isn't the header's.
fn repeat_start(h: VoiceHeader, n: usize, k: u8) -> Option<u64>
    ensures { result ≡ repeat_start h n k }
{
    repeat_from(h, n, k, h.one_shot_samples(k)?)
}

// The same, where the one-shot part's length is known.
fn repeat_from(h: VoiceHeader, n: usize, k: u8, one_shot: u64) -> Option<u64>
    ensures { result ≡ repeat_from h n k one_shot }
{
    let repeat = h.repeat_samples(k)?;
    let length = n as u64;
    if length < one_shot {
        return None;
    }
    if length - one_shot != repeat {
        return None;
    }
    Some(one_shot)
}

// Where the one-shot part lies in an octave k of n samples.
pub fn one_shot_part(h: VoiceHeader, n: usize, k: u8) -> Option<Part>
    ensures { result ≡ one_shot_part h n k }
{
    let length = repeat_start(h, n, k)? as usize;
    Some(Part { start: 0, length })
}

// Where the repeat part lies in an octave k of n samples.
pub fn repeat_part(h: VoiceHeader, n: usize, k: u8) -> Option<Part>
    ensures { result ≡ repeat_part h n k }
{
    let start = repeat_start(h, n, k)? as usize;
    let length = n - start;
    Some(Part { start, length })
}

// The one-shot part of octave k.
pub fn loop_one_shot<'a>(h: VoiceHeader, octave: &'a [i8], k: u8) -> &'a [i8]
    ensures contents { result.now ≡ part_of (one_shot_part h (length octave.now) k) octave.now }
    ensures place { result.ref_ptr ≡ part_at (one_shot_part h (length octave.now) k) octave.entry.ref_ptr }
{
    part_of(octave, one_shot_part(h, octave.len(), k))
}

// The repeat part of octave k.
pub fn loop_repeat<'a>(h: VoiceHeader, octave: &'a [i8], k: u8) -> &'a [i8]
    ensures contents { result.now ≡ part_of (repeat_part h (length octave.now) k) octave.now }
    ensures place { result.ref_ptr ≡ part_at (repeat_part h (length octave.now) k) octave.entry.ref_ptr }
{
    part_of(octave, repeat_part(h, octave.len(), k))
}
