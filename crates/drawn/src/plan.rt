// What the first five draws say of a voice.
ghost use Rattle.std.specs.Prelude.{◌≡◌, cond, ◌^◌, ◌<◌, length};
ghost use Rattle.header.specs.Octaves.{total_samples};
ghost use Rattle.sheet.specs.Flat.{flat};
ghost use Rattle.drawn.specs.Draw.{nth_draw};
ghost use Rattle.drawn.specs.DrawnVoice.{two_channels, one_shot_beside, drawn_header, plain_voice};

use crate::draw::draw;
use header::VoiceHeader;
use voice_read::Lengths;

// Header and channels, and the fifth draw, from which the samples are drawn.
#[derive(Clone, Copy)]
pub(crate) struct Plan {
    pub(crate) header: VoiceHeader,
    pub(crate) stereo: bool,
    pub(crate) last: u32,
}

// A one-shot part beside a repeat part: 1 if both are 0, since a voice of no length would be one octave of no samples.
fn one_shot_beside(repeat: u32, one_shot: u32) -> u32
    requires { (repeat < 64) × (one_shot < 64) }
    ensures { result ≡ one_shot_beside repeat one_shot }
{
    if one_shot + repeat == 0 { 1 } else { one_shot }
}

// The first five draws from a number.
pub(crate) fn plan_of(number: u32) -> Plan
    ensures header { result.header ≡ drawn_header number }
    ensures stereo { result.stereo ≡ two_channels number }
    ensures last { result.last ≡ nth_draw 5 number }
{
    let channels = draw(number);
    let octaves = draw(channels);
    let one_shot = draw(octaves);
    let repeat = draw(one_shot);
    let rate = draw(repeat);
    let repeat_samples = repeat % 64;
    let one_shot_samples = one_shot_beside(repeat_samples, one_shot % 64);
    let header = VoiceHeader {
        one_shot_hi_samples: one_shot_samples,
        repeat_hi_samples: repeat_samples,
        samples_per_hi_cycle: 0,
        samples_per_sec: (8000 + rate % 40000) as u16,
        ct_octave: (1 + octaves % 4) as u8,
        compression_byte: 0,
        volume: 65536,
    };
    let stereo = channels % 2 == 1;
    Plan {
        header,
        stereo,
        last: rate,
    }
}

// The length of a channel.
fn channel_length(h: VoiceHeader) -> usize
    requires { total_samples h < 2 ^ 64 }
    ensures { result ≡ total_samples h }
{
    match h.total_samples_per_channel() {
        Ok(n) => n as usize,
        Err(_) => 0,
    }
}

// The lengths of the sheet and of both sides.
pub(crate) fn lengths_of(h: VoiceHeader, stereo: bool) -> Lengths
    requires { total_samples h < 2 ^ 64 }
    ensures sheet { result.sheet ≡ length (flat (plain_voice h stereo)) }
    ensures left { result.left ≡ total_samples h }
    ensures right { result.right ≡ cond stereo (total_samples h) 0 }
{
    let left = channel_length(h);
    if stereo {
        return Lengths {
            sheet: 23,
            left,
            right: left,
        };
    }
    Lengths {
        sheet: 21,
        left,
        right: 0,
    }
}
