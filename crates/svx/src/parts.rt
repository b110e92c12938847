// Parts of samples, by their start and length.
ghost use Rattle.std.specs.Prelude.{◌≡◌, cond};
ghost use Rattle.header.specs.Octaves.{hi, in_octave};
ghost use Rattle.octaves.specs.Octave.{repeat_part};
ghost use Rattle.octaves.specs.Side.{side_part};
ghost use Rattle.octaves.specs.declared.side.Side.TheVariants.{Left, Right};
ghost use Rattle.svx.specs.Shapes.{part_shape, count_of, octave_header};

use voice::{Part, Side, VoiceHeader, repeat_part, side_part};

// Where it isn't there, the rest is 0.
#[repr(C)]
#[derive(Clone, Copy)]
pub struct SvxPart {
    pub there: bool,
    pub start: u64,
    pub length: u64,
}

fn hand_part(part: Option<Part>) -> SvxPart
    ensures { result ≡ part_shape part }
{
    match part {
        Some(part) => SvxPart {
            there: true,
            start: part.start as u64,
            length: part.length as u64,
        },
        None => SvxPart {
            there: false,
            start: 0,
            length: 0,
        },
    }
}

// A header of which the octaves' lengths alone matter.
pub(crate) fn octave_header(one_shot: u32, repeat: u32, octaves: u8) -> VoiceHeader
    ensures { result ≡ octave_header one_shot repeat octaves }
{
    VoiceHeader {
        one_shot_hi_samples: one_shot,
        repeat_hi_samples: repeat,
        samples_per_hi_cycle: 0,
        samples_per_sec: 0,
        ct_octave: octaves,
        compression_byte: 0,
        volume: 0,
    }
}

#[unsafe(no_mangle)]
pub extern "C" fn svx_octave_samples(one_shot: u32, repeat: u32, octaves: u8, k: u8) -> SvxPart
    ensures { result ≡ count_of (in_octave (octave_header one_shot repeat octaves) (hi (octave_header one_shot repeat octaves)) k) }
{
    let h = octave_header(one_shot, repeat, octaves);
    match h.octave_samples(k) {
        Some(n) => SvxPart {
            there: true,
            start: 0,
            length: n,
        },
        None => SvxPart {
            there: false,
            start: 0,
            length: 0,
        },
    }
}

#[unsafe(no_mangle)]
pub extern "C" fn svx_loop_repeat(
    one_shot: u32,
    repeat: u32,
    octaves: u8,
    k: u8,
    octave_len: u64,
) -> SvxPart
    ensures { result ≡ part_shape (repeat_part (octave_header one_shot repeat octaves) octave_len k) }
{
    let h = octave_header(one_shot, repeat, octaves);
    hand_part(repeat_part(h, octave_len as usize, k))
}

#[unsafe(no_mangle)]
pub extern "C" fn svx_side_samples(
    sheet: &[u8],
    left_len: u64,
    right_len: u64,
    right: bool,
) -> SvxPart
    ensures { result ≡ part_shape (cond right (side_part sheet.now Right right_len) (side_part sheet.now Left left_len)) }
{
    if right {
        return hand_part(side_part(sheet, Side::Right, right_len as usize));
    }
    hand_part(side_part(sheet, Side::Left, left_len as usize))
}
