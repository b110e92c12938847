// Frequency, pan, volume, peak, the nearest crossing, and level.
ghost use Rattle.std.specs.Prelude.{◌≡◌};
ghost use Rattle.crossing.specs.Crossing.{nearest_crossing};
ghost use Rattle.envelope.specs.Envelope.{level_at};
ghost use Rattle.header.specs.Frequency.{cycle_frequency};
ghost use Rattle.small_chunks.specs.Envelope.{envelope_points};
ghost use Rattle.header_volume.specs.Volume.{volume_float};
ghost use Rattle.samples.specs.Peak.{peak_of};
ghost use Rattle.svx.specs.Answers.{refusal_number, handed};
ghost use Rattle.svx.specs.Shapes.{frequency_of, weights_at, peak_shape};

use crate::hand::hand_length;
use voice::{Pan, VoiceHeader, nearest_crossing, peak};

// Where it isn't known, hertz is 0.
#[repr(C)]
#[derive(Clone, Copy)]
pub struct SvxFrequency {
    pub known: bool,
    pub hertz: f64,
}

#[repr(C)]
#[derive(Clone, Copy)]
pub struct SvxPan {
    pub left: f32,
    pub right: f32,
}

// Where there is no sample, the rest is 0.
#[repr(C)]
#[derive(Clone, Copy)]
pub struct SvxPeak {
    pub found: bool,
    pub magnitude: u8,
    pub place: u64,
}

fn header_with(rate: u16, samples_per_cycle: u32) -> VoiceHeader
    ensures { (result.samples_per_sec ≡ rate) × (result.samples_per_hi_cycle ≡ samples_per_cycle) }
{
    VoiceHeader {
        one_shot_hi_samples: 0,
        repeat_hi_samples: 0,
        samples_per_hi_cycle: samples_per_cycle,
        samples_per_sec: rate,
        ct_octave: 0,
        compression_byte: 0,
        volume: 0,
    }
}

#[unsafe(no_mangle)]
pub extern "C" fn svx_hi_cycle_frequency_hz(rate: u16, samples_per_cycle: u32) -> SvxFrequency
    ensures { result ≡ frequency_of (cycle_frequency rate samples_per_cycle) }
{
    let h = header_with(rate, samples_per_cycle);
    match h.hi_cycle_frequency_hz() {
        Some(hertz) => SvxFrequency { known: true, hertz },
        None => SvxFrequency {
            known: false,
            hertz: 0.0,
        },
    }
}

#[unsafe(no_mangle)]
pub extern "C" fn svx_pan_weights(position: i32) -> SvxPan
    ensures { result ≡ weights_at position }
{
    let pan = Pan { position };
    let w = pan.weights();
    SvxPan {
        left: w.left,
        right: w.right,
    }
}

#[unsafe(no_mangle)]
pub extern "C" fn svx_volume_f32(volume: u32) -> f32
    ensures { result ≡ volume_float volume }
{
    voice::volume_f32(volume)
}

#[unsafe(no_mangle)]
pub extern "C" fn svx_peak(samples: &[i8]) -> SvxPeak
    ensures { result ≡ peak_shape (peak_of samples.now) }
{
    match peak(samples) {
        None => SvxPeak {
            found: false,
            magnitude: 0,
            place: 0,
        },
        Some(loudest) => SvxPeak {
            found: true,
            magnitude: loudest.magnitude,
            place: loudest.place as u64,
        },
    }
}

#[unsafe(no_mangle)]
pub extern "C" fn svx_nearest_crossing(
    samples: &[i8],
    place: u64,
    reach: u64,
    found: &mut u64,
) -> u32
    ensures result { result ≡ refusal_number (nearest_crossing samples.now place reach) }
    ensures found { found.new ≡ handed (nearest_crossing samples.now place reach) found.old }
{
    let crossing = nearest_crossing(samples, place as usize, reach as usize);
    hand_length(crossing, found)
}

#[unsafe(no_mangle)]
pub extern "C" fn svx_level_at_ms(points: &[u8], start: i32, t_ms: u64) -> i32
    ensures { result ≡ level_at (envelope_points points.now) start t_ms }
{
    voice::level_at_ms(points, start, t_ms)
}
