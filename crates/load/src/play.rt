// Every octave of a voice, as a note that is held.
use crate::Voice;
use crate::sums::Sums;
use voice::Note;

// 4,096 frames of an octave, one sample a frame; nothing of an octave that isn't there.
fn play_octave(sums: Sums, k: u8, voice: Voice, block: &mut [i16; 8192]) -> Sums {
    let note = Note::start(k, 65536, 44100, 127);
    let filled = note.fill(voice.sheet, voice.left, voice.right, block);
    match filled.answer {
        Err(_) => sums,
        Ok(sounding) => sums.with_note(sounding, block),
    }
}

// A drawn voice has four octaves at most.
pub fn play_octaves(sums: Sums, voice: Voice) -> Sums {
    let mut block = [0i16; 8192];
    let mut played = sums;
    for k in 0..4 {
        played = play_octave(played, k, voice, &mut block);
    }
    played
}
