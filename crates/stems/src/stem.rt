// A stem: the first 2,000 frames of a note, made by one list of calls, left and right values by turns.
ghost use Rattle.std.specs.Prelude.{◌<◌};

use crate::Voice;
use print::first;
use voice::{KEY_UP, Note, REFUSED, make_calls};

// How many frames come before the key-up, and as many after it.
const HALF: usize = 1000;

// Fills of 1,000 frames together, in blocks of so many, or what is left of them.
fn put_fills(calls: &mut [u64], block: usize) {
    let mut left = HALF;
    for call in calls {
        let frames = block.min(left);
        *call = 2 * frames as u64;
        left -= frames;
    }
}

// How many frames aren't over by all answers together, or the first refusal's number: the answers are numbers, as C hosts get them.
fn all_sounding(answers: &[u64]) -> Result<u64, u64> {
    let mut count = 0u64;
    for answer in answers {
        if let Some(number) = answer.checked_sub(REFUSED) {
            return Err(number);
        }
        count = count.wrapping_add(*answer);
    }
    Ok(count)
}

// Fills a buffer of 4,000 places in blocks of so many frames, or shorter ones before the key-up and at the end; answers how many frames
// aren't over.
pub fn play(voice: Voice, block: usize, out: &mut [i16]) -> Result<u64, u64>
    requires { 0 < block }
{
    let fills = HALF.div_ceil(block);
    let end = 2 * fills + 1;
    let mut calls = [0u64; 2001];
    let mut answers = [0u64; 2001];
    put_fills(&mut calls[..fills], block);
    calls[fills] = KEY_UP;
    put_fills(&mut calls[fills + 1..end], block);
    let note = Note::start(1, 70000, 8000, 127);
    match make_calls(
        note,
        voice.sheet,
        voice.left,
        voice.right,
        &calls[..end],
        out,
        &mut answers,
    ) {
        Err(refusal) => Err(u64::from(refusal.number())),
        Ok(made) => all_sounding(first(&answers, made.answers)),
    }
}
