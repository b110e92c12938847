// VHDR: the voice header, and what it says of the octaves.
ghost use Rattle.std.specs.Prelude.{◌≡◌, ◌+◌, ◌*◌, ◌≤◌, ◌<◌, length, drop};
ghost use Rattle.header.specs.Compression.{known_compression};
ghost use Rattle.header.specs.Frequency.{cycle_frequency};
ghost use Rattle.header.specs.Header.{header_of, header_bytes, parsed_header};
ghost use Rattle.header.specs.Octaves.{hi, in_octave, total, loops, octave_there};
ghost use Rattle.header_volume.specs.Volume.{volume_float};

use crate::compression::{Compression, known_compression};
use refusal::Refusal;

#[derive(Clone, Copy)]
pub struct VoiceHeader {
    // Samples of the highest octave that are played once.
    pub one_shot_hi_samples: u32,
    // Samples of the highest octave, after those, that are played again and again.
    pub repeat_hi_samples: u32,
    // Samples in one cycle of the highest octave; 0 where that is not known.
    pub samples_per_hi_cycle: u32,
    // The rate in Hz.
    pub samples_per_sec: u16,
    // How many octaves BODY has; 0 counts as 1.
    pub ct_octave: u8,
    // 0 is raw, 1 is Fibonacci.
    pub compression_byte: u8,
    // 16.16: 65,536 is full.
    pub volume: u32,
}

// The 20 bytes from `at` on.
pub fn read_header(s: &[u8], at: usize) -> VoiceHeader
    requires { at + 20 ≤ length s.now }
    ensures { result ≡ header_of (drop at s.now) }
{
    let repeat = at + 4;
    let cycle = at + 8;
    let rate = at + 12;
    let octaves = at + 14;
    let compression = at + 15;
    let volume = at + 16;
    VoiceHeader {
        one_shot_hi_samples: field::read32(s, at),
        repeat_hi_samples: field::read32(s, repeat),
        samples_per_hi_cycle: field::read32(s, cycle),
        samples_per_sec: field::read16(s, rate),
        ct_octave: s[octaves],
        compression_byte: s[compression],
        volume: field::read32(s, volume),
    }
}

impl VoiceHeader {
    // The header of a VHDR chunk.
    pub fn parse(body: &[u8]) -> Result<VoiceHeader, Refusal>
        ensures { result ≡ parsed_header body.now }
    {
        if body.len() < 20 {
            return Err(Refusal::ChunkLength);
        }
        Ok(read_header(body, 0))
    }

    // Its 20 bytes.
    pub fn write(self) -> [u8; 20]
        ensures { result ≡ header_bytes self }
    {
        let mut out = [0; 20];
        let repeat = field::put32(&mut out, 0, self.one_shot_hi_samples);
        let cycle = field::put32(&mut out, repeat, self.repeat_hi_samples);
        let rate = field::put32(&mut out, cycle, self.samples_per_hi_cycle);
        let octaves = field::put16(&mut out, rate, self.samples_per_sec);
        let compression = field::put_byte(&mut out, octaves, self.ct_octave);
        let volume = field::put_byte(&mut out, compression, self.compression_byte);
        field::put32(&mut out, volume, self.volume);
        out
    }

    // How BODY is stored; 10 where the byte names no compression.
    pub fn compression(self) -> Result<Compression, Refusal>
        ensures { result ≡ known_compression self.compression_byte }
    {
        known_compression(self.compression_byte)
    }

    // The length of the highest octave.
    pub fn hi_octave_samples(self) -> u64
        ensures { result ≡ hi self }
    {
        self.one_shot_hi_samples as u64 + self.repeat_hi_samples as u64
    }

    // That octave k is there. If hi = 0 only octave 0 is, though `octave_samples` gives 0 for others.
    pub fn has_octave(self, k: u8) -> bool
        ensures { result ≡ octave_there self k }
    {
        if self.hi_octave_samples() == 0 {
            return k == 0;
        }
        if self.ct_octave == 0 {
            return k == 0;
        }
        k < self.ct_octave
    }

    // A length n of octave 0 as it is in octave k. Bits shifted out of 64 are dropped.
    fn in_octave(self, n: u64, k: u8) -> Option<u64>
        ensures { result ≡ in_octave self n k }
    {
        if 64 <= k {
            return None;
        }
        if self.ct_octave <= k {
            if 1 <= k {
                return None;
            }
            let samples = n << k;
            return Some(samples);
        }
        let samples = n << k;
        Some(samples)
    }

    // The length of octave k.
    pub fn octave_samples(self, k: u8) -> Option<u64>
        ensures { result ≡ in_octave self (hi self) k }
    {
        self.in_octave(self.hi_octave_samples(), k)
    }

    // The length of octave k's one-shot part.
    pub fn one_shot_samples(self, k: u8) -> Option<u64>
        ensures { result ≡ in_octave self self.one_shot_hi_samples k }
    {
        self.in_octave(self.one_shot_hi_samples as u64, k)
    }

    // The length of octave k's repeat part.
    pub fn repeat_samples(self, k: u8) -> Option<u64>
        ensures { result ≡ in_octave self self.repeat_hi_samples k }
    {
        self.in_octave(self.repeat_hi_samples as u64, k)
    }

    // The samples of all octaves; 13 where they pass 64 bits. To stay within them, hi is compared with what the other
    // factor leaves room for.
    pub fn total_samples_per_channel(self) -> Result<u64, Refusal>
        ensures { result ≡ total self }
    {
        let hi = self.hi_octave_samples();
        if hi == 0 {
            return Ok(0);
        }
        if 64 < self.ct_octave {
            return Err(Refusal::OctaveTotal);
        }
        let octaves = if self.ct_octave == 0 {
            1
        } else {
            self.ct_octave
        };
        let factor = 0xffff_ffff_ffff_ffff >> (64 - octaves);
        if 0xffff_ffff_ffff_ffff / factor < hi {
            return Err(Refusal::OctaveTotal);
        }
        let sum = hi * factor;
        Ok(sum)
    }

    // That there is a part that repeats.
    pub fn has_loop(self) -> bool
        ensures { result ≡ loops self }
    {
        0 < self.repeat_hi_samples
    }

    // The volume as a float: 1.0 is full.
    pub fn volume_f32(self) -> f32
        ensures { result ≡ volume_float self.volume }
    {
        header_volume::volume_f32(self.volume)
    }

    // The highest octave's frequency.
    pub fn hi_cycle_frequency_hz(self) -> Option<f64>
        ensures { result ≡ cycle_frequency self.samples_per_sec self.samples_per_hi_cycle }
    {
        if self.samples_per_sec == 0 {
            return None;
        }
        if self.samples_per_hi_cycle == 0 {
            return None;
        }
        let rate = self.samples_per_sec as f64;
        let per_cycle = self.samples_per_hi_cycle as f64;
        Some(rate / per_cycle)
    }
}
