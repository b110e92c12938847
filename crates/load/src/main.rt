// The load: the voices of the numbers 1 to 1,000, each drawn, every octave of it played for 4,096 frames, and then written, read from its file
// and held against what was drawn. It prints how much that is, and a sum over all files and one over all frames, which are the same on every
// machine: those that the plain versions of `tools/compare` come to.
#![tactic(auto)]

mod play;
mod sums;

use crate::play::play_octaves;
use crate::sums::Sums;
use print::{Passing, first};
use std::io;
use voice::{Lengths, drawn_voice, encode_voice, parse_voice};

// A voice: its sheet, and the samples of both sides.
#[derive(Clone, Copy, PartialEq)]
struct Voice<'a> {
    sheet: &'a [u8],
    left: &'a [i8],
    right: &'a [i8],
}

// A voice in buffers that do for every number, each cut to its length.
fn cut<'a>(
    l: Lengths,
    sheet: &'a [u8; 23],
    left: &'a [i8; 1890],
    right: &'a [i8; 1890],
) -> Voice<'a> {
    Voice {
        sheet: first(sheet, l.sheet),
        left: first(left, l.left),
        right: first(right, l.right),
    }
}

// A voice drawn, played and written. It is played first: the compiler then still has the bytes of its sheet in hand, and makes a loop over the
// frames in which nothing is left of volume, envelope, fade and sides that all drawn voices have alike, a quarter fewer instructions in all.
fn draw(sums: Sums, number: u32) -> Sums {
    let mut sheet = [0u8; 23];
    let mut left = [0i8; 1890];
    let mut right = [0i8; 1890];
    match drawn_voice(number, &mut sheet, &mut left, &mut right) {
        Err(_) => sums,
        Ok(l) => {
            let voice = cut(l, &sheet, &left, &right);
            write(sums, play_octaves(sums.with_voice(), voice), voice)
        }
    }
}

// The sums with the voice's file, and with what was played if what is read from that file is what was drawn. The longest has 3,840 bytes.
fn write(sums: Sums, played: Sums, voice: Voice) -> Sums {
    let mut buffer = [0u8; 3840];
    match encode_voice(voice.sheet, voice.left, voice.right, &mut buffer) {
        Err(_) => sums,
        Ok(length) => {
            let file = first(&buffer, length);
            let counted = if comes_back(file, voice) {
                played
            } else {
                sums
            };
            counted.with_file(file)
        }
    }
}

// That a file is read as this voice.
fn comes_back(file: &[u8], voice: Voice) -> bool {
    let mut sheet = [0u8; 23];
    let mut left = [0i8; 1890];
    let mut right = [0i8; 1890];
    match parse_voice(file, &mut sheet, &mut left, &mut right) {
        Err(_) => false,
        Ok(l) => cut(l, &sheet, &left, &right) == voice,
    }
}

fn main(rt: HostRuntime) -> io::Result<()> {
    let out = Passing(&rt);
    let sums = (1..=1000).fold(Sums::default(), draw);
    println!(out; "voices read as they were drawn: {}", sums.voices)?;
    println!(out; "files: {} bytes, sum {}", sums.bytes, sums.files)?;
    println!(out;
        "notes: {} of 4096 frames, {} not over, sum {}",
        sums.notes, sums.sounding, sums.frames
    )
}
