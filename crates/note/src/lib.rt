// A note on a voice: started, filled block by block, and released. Each call takes the note and gives the note after it.
#![tactic(auto)]

ghost use Rattle.std.specs.Prelude.{◌≡◌, length};
ghost use Rattle.sheet.specs.Judge.{judged};
ghost use Rattle.sheet.specs.Read.{read_sheet};
ghost use Rattle.std.specs.Prelude.{Ok};
ghost use Rattle.note.specs.Note.{start_of, key_up_of, advance_of};
ghost use Rattle.note.specs.Fill.{fill_voice, fill_leaves, after_fill};

use note_block::next_block;
use note_frame::{Key, Playing};
use note_rules::fill_refusal;
use refusal::Refusal;
use sheet::judge_sheet;
use sheet_layout::layout_of;

// A note: how it plays (octave, velocity, step, output rate, held or released), and the frames filled.
#[derive(Clone, Copy)]
pub struct Note {
    pub playing: Playing,
    pub frames: u32,
}

// The note after a fill, and its answer.
#[derive(Clone, Copy)]
pub struct Filled {
    pub note: Note,
    pub answer: Result<usize, Refusal>,
}

impl Note {
    // A fresh note: no frames filled, held. Whatever it is given it keeps, and a fill judges it.
    pub fn start(octave: u8, step: u32, rate: u32, velocity: u8) -> Self
        ensures { result ≡ start_of octave step rate velocity }
    {
        let playing = Playing {
            octave,
            velocity,
            step,
            rate,
            key: Key::Held,
        };
        Note { playing, frames: 0 }
    }

    // The note after a key-up, which is at the frames filled. Only the first one counts.
    pub fn key_up(mut self) -> Self
        ensures { result ≡ key_up_of self }
    {
        if let Key::Held = self.playing.key {
            self.playing.key = Key::Released(self.frames);
        }
        self
    }

    // The note after so many frames more; they stop at 4,294,967,295.
    pub fn advance(mut self, frames: usize) -> Self
        ensures { result ≡ advance_of self frames }
    {
        let room = 4294967295 - self.frames;
        if frames <= room as usize {
            self.frames = self.frames + frames as u32;
            return self;
        }
        self.frames = 4294967295;
        self
    }

    // A fill of a sound sheet.
    fn fill_sound(self, sheet: &[u8], left: &[i8], right: &[i8], out: &mut [i16]) -> Filled
        requires { judged sheet.now ≡ Ok tt }
        ensures answer { result.answer ≡ (fill_leaves (fill_voice (read_sheet sheet.now) (record { left = left.entry.now; right = right.now }) self.playing self.frames (length out.old)) self out.old).answer }
        ensures note { result.note ≡ (fill_leaves (fill_voice (read_sheet sheet.now) (record { left = left.entry.now; right = right.now }) self.playing self.frames (length out.old)) self out.old).note }
        ensures buffer { out.new ≡ (fill_leaves (fill_voice (read_sheet sheet.now) (record { left = left.entry.now; right = right.now }) self.playing self.frames (length out.old)) self out.old).buffer }
    {
        let l = layout_of(sheet);
        let playing = self.playing;
        if let Err(refusal) = fill_refusal(
            sheet,
            l,
            left.len(),
            right.len(),
            playing,
            self.frames,
            out.len(),
        ) {
            return Filled {
                note: self,
                answer: Err(refusal),
            };
        }
        let frames = out.len() / 2;
        let count = next_block(playing, self.frames, sheet, l, left, right, out);
        let note = self.advance(frames);
        Filled {
            note,
            answer: Ok(count),
        }
    }

    // Fills a buffer with the next block, left and right values by turns; answers how many of its frames aren't over. 15 to 17, 10, 13,
    // 18, 21 to 25, 31 to 34, 44; a refused fill changes neither the buffer nor the note.
    pub fn fill(self, sheet: &[u8], left: &[i8], right: &[i8], out: &mut [i16]) -> Filled
        ensures answer { result.answer ≡ (after_fill sheet.now (record { left = left.entry.now; right = right.now }) self out.old).answer }
        ensures note { result.note ≡ (after_fill sheet.now (record { left = left.entry.now; right = right.now }) self out.old).note }
        ensures buffer { out.new ≡ (after_fill sheet.now (record { left = left.entry.now; right = right.now }) self out.old).buffer }
    {
        match judge_sheet(sheet) {
            Err(refusal) => Filled {
                note: self,
                answer: Err(refusal),
            },
            Ok(()) => self.fill_sound(sheet, left, right, out),
        }
    }
}
