// A chord: four notes that start one after another, mixed in blocks of several lengths. It prints some mixed frames of the first pass, and for
// each pass how many of its values differ from the first one's: none, since a mix is the same however it is cut into blocks.
ghost use Rattle.std.specs.Prelude.{◌≡◌, ◌<◌, ◌≤◌, length};

use crate::{Voice, report};
use ensemble::{Entry, mix};
use refusal::Refusal;
use std::io;

fn struck(start: u32, key_up: u32, step: u32, octave: u8, velocity: u8) -> Entry {
    Entry {
        start,
        key_up,
        step,
        octave,
        velocity,
    }
}

// A fifth, a fourth and an octave above the first note, each struck softer and the last in the higher octave; the third is let go first.
fn score() -> [Entry; 4] {
    [
        struck(0, 1000, 40000, 1, 127),
        struck(100, 1100, 60000, 1, 110),
        struck(397, 700, 53333, 1, 100),
        struck(400, 1200, 40000, 0, 90),
    ]
}

// Mixes a whole buffer in blocks of so many frames, each from the place that came back last; answers the place past them.
fn mix_all(voice: Voice, block: usize, out: &mut [i16]) -> Result<u32, Refusal>
    requires { (0 < block) × (block ≤ 1000) }
{
    let score = score();
    let mut place = 0;
    for part in out.chunks_mut(2 * block) {
        place = mix(
            &score,
            8000,
            place,
            voice.sheet,
            voice.left,
            voice.right,
            part,
        )?;
    }
    Ok(place)
}

// One more pass, held against the first.
fn mix_again(rt: &impl Print, voice: Voice, block: usize, first: &[i16]) -> io::Result<()>
    requires { (0 < block) × (block ≤ 1000) × (length first.now ≡ 4000) }
{
    let mut again = [0i16; 4000];
    match mix_all(voice, block, &mut again) {
        Err(refusal) => println!(rt; "refused by {}", refusal.number()),
        Ok(place) => {
            report::mixed(rt, block, place)?;
            report::difference(rt, first, &again)
        }
    }
}

// The first pass, with its frames at the start, where the last two notes start and around the first key-up of the lowest; then the others.
pub fn mix_voice(rt: &impl Print, voice: Voice) -> io::Result<()> {
    let mut first = [0i16; 4000];
    match mix_all(voice, 1, &mut first) {
        Err(refusal) => println!(rt; "refused by {}", refusal.number()),
        Ok(place) => {
            report::frames(rt, &first, 0)?;
            report::frames(rt, &first, 394)?;
            report::frames(rt, &first, 996)?;
            report::mixed(rt, 1, place)?;
            println!(rt;)?;
            mix_again(rt, voice, 7, &first)?;
            mix_again(rt, voice, 64, &first)?;
            mix_again(rt, voice, 1000, &first)
        }
    }
}
