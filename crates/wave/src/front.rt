// What stands before the values: the RIFF's head and type, the format, and the head of the data.
ghost use Rattle.std.specs.Prelude.{◌+◌, ◌^◌, ◌<◌};
ghost use Rattle.laws.specs.Put.{Put};
ghost use Rattle.wave.specs.Riff.{riff_head, format_bytes};
ghost use Rattle.wave.specs.Helpers.{front_bytes};

use field::{put16_le, put32, put32_le};

const RIFF: u32 = 0x5249_4646;

const WAVE: u32 = 0x5741_5645;

// fmt and a space.
const FMT: u32 = 0x666d_7420;

const DATA: u32 = 0x6461_7461;

// Name and length of a chunk; the place past them.
fn put_riff_head(id: u32, n: u32, d: &mut [u8], at: usize) -> usize
    requires { at + 8 < 2 ^ 63 }
    ensures { Put d.old at (riff_head id n) d.new result }
{
    let named = put32(d, at, id);
    put32_le(d, named, n)
}

// The format; the place past it.
fn put_format(channels: u16, rate: u16, d: &mut [u8], at: usize) -> usize
    requires { (channels < 3) × (at + 16 < 2 ^ 63) }
    ensures { Put d.old at (format_bytes channels rate) d.new result }
{
    let frames = rate as u32;
    let bytes = frames * channels as u32;
    let coded = put16_le(d, at, 1);
    let counted = put16_le(d, coded, channels);
    let timed = put32_le(d, counted, frames);
    let paced = put32_le(d, timed, bytes);
    let framed = put16_le(d, paced, channels);
    put16_le(d, framed, 8)
}

// All that stands before n bytes of values, in a RIFF that holds so many bytes; the place past it.
pub(crate) fn put_front(channels: u16, rate: u16, held: u32, n: u32, d: &mut [u8]) -> usize
    requires { channels < 3 }
    ensures { Put d.old 0 (front_bytes channels rate held n) d.new result }
{
    let sized = put_riff_head(RIFF, held, d, 0);
    let typed = put32(d, sized, WAVE);
    let begun = put_riff_head(FMT, 16, d, typed);
    let told = put_format(channels, rate, d, begun);
    put_riff_head(DATA, n, d, told)
}
