// Octaves as WAVE.
use print::{Bytes, Samples, first, refused};
use std::io;
use voice::octave_wave;

fn write(rt: &impl Print, sheet: &[u8], left: &[i8], right: &[i8], octave: u8) -> io::Result<()> {
    let mut out = [0u8; 64];
    match octave_wave(sheet, left, right, octave, &mut out) {
        Ok(n) => println!(rt; "{}", Bytes(first(&out, n))),
        Err(refusal) => refused(rt, refusal.number()),
    }
}

// A voice with this one-shot part in the highest of so many octaves, at 256 times `rate` Hz; with two channels if there is a right side.
fn wave(
    rt: &impl Print,
    one_shot: u8,
    octaves: u8,
    rate: u8,
    left: &[i8],
    right: &[i8],
    octave: u8,
) -> io::Result<()> {
    print!(rt;
        "octave {octave} of{} /{} as WAVE:",
        Samples(left),
        Samples(right)
    )?;
    let mut sheet = [0u8; 23];
    sheet[0] = 1;
    sheet[4] = one_shot;
    sheet[13] = rate;
    sheet[15] = octaves;
    sheet[18] = 1;
    sheet[21] = 2;
    sheet[22] = 6;
    if right.is_empty() {
        return write(rt, &sheet[..21], left, right, octave);
    }
    write(rt, &sheet, left, right, octave)
}

pub fn run(rt: &impl Print) -> io::Result<()> {
    wave(rt, 1, 1, 31, &[-2], &[], 0)?;
    wave(rt, 1, 1, 31, &[-2], &[], 1)?;
    wave(rt, 1, 1, 31, &[-2, 3], &[], 0)?;
    wave(rt, 1, 3, 31, &[-2, 3, 4, 5, 6, 7, 8], &[], 1)?;
    wave(rt, 1, 2, 86, &[-128, 0, 127], &[1, 2, 3], 1)?;
    wave(rt, 0, 3, 1, &[1, 2, 3], &[], 0)?;
    wave(rt, 0, 3, 1, &[1, 2, 3], &[], 1)?;
    wave(rt, 0, 3, 0, &[1, 2, 3], &[], 0)?;
    wave(rt, 0, 3, 0, &[1, 2, 3], &[], 1)?;
    wave(rt, 0, 3, 1, &[], &[], 0)
}
