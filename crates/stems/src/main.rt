// Plays one note on the voice that standard input holds, as four stems: in blocks of 1, 7, 64 and 1,000 frames, each with the key-up
// after 1,000 frames. It prints some frames of the first stem, then for each stem how many of its frames aren't over, and how many of
// its values differ from the first stem's: none, since a note sounds the same however it is cut into blocks. Then it does the same with a
// chord (`chord`).
//
// The file `stdin` beside src/ is a looped voice of two octaves, with a pan, an attack of 80 milliseconds and a release of 100, so that
// at 8,000 frames a second the note is over 800 frames after the key-up.
#![tactic(auto)]

mod chord;
mod report;
mod stem;

ghost use Rattle.std.specs.Prelude.{◌≡◌, ◌<◌, length};

use print::{Passing, first};
use std::io;
use std::io::Read;
use voice::parse_voice;

fn main(rt: HostRuntime) -> io::Result<()> {
    let mut file = [0u8; 1024];
    let mut rest = file.as_mut_slice();
    // where a read fails the file ends
    let _ = io::copy(&mut rt.reader().take(1024), &mut rest);
    let n = 1024usize.saturating_sub(rest.len());
    play_file(&Passing(&rt), first(&file, n))
}

// A voice that was read: its sheet, and the samples of both sides.
#[derive(Clone, Copy)]
struct Voice<'a> {
    sheet: &'a [u8],
    left: &'a [i8],
    right: &'a [i8],
}

// The voice of a file, each part in a buffer that is cut to its length.
fn play_file(rt: &impl Print, file: &[u8]) -> io::Result<()> {
    let mut sheet = [0u8; 1024];
    let mut left = [0i8; 1024];
    let mut right = [0i8; 1024];
    match parse_voice(file, &mut sheet, &mut left, &mut right) {
        Err(refusal) => println!(rt; "refused by {}", refusal.number()),
        Ok(l) => {
            let voice = Voice {
                sheet: first(&sheet, l.sheet),
                left: first(&left, l.left),
                right: first(&right, l.right),
            };
            play_note(rt, voice)?;
            chord::mix_voice(rt, voice)
        }
    }
}

// The first stem, with its frames at the start, around the key-up and where the note ends; then the others.
fn play_note(rt: &impl Print, voice: Voice) -> io::Result<()> {
    let mut first = [0i16; 4000];
    match stem::play(voice, 1, &mut first) {
        Err(number) => println!(rt; "refused by {number}"),
        Ok(sounding) => {
            report::frames(rt, &first, 0)?;
            report::frames(rt, &first, 996)?;
            report::frames(rt, &first, 1796)?;
            report::stem(rt, 1, &first, sounding)?;
            println!(rt;)?;
            play_again(rt, voice, 7, &first)?;
            play_again(rt, voice, 64, &first)?;
            play_again(rt, voice, 1000, &first)
        }
    }
}

// One more stem, held against the first.
fn play_again(rt: &impl Print, voice: Voice, block: usize, first: &[i16]) -> io::Result<()>
    requires { (0 < block) × (length first.now ≡ 4000) }
{
    let mut again = [0i16; 4000];
    match stem::play(voice, block, &mut again) {
        Err(number) => println!(rt; "refused by {number}"),
        Ok(sounding) => {
            report::stem(rt, block, &again, sounding)?;
            report::difference(rt, first, &again)
        }
    }
}
