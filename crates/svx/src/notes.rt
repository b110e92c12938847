// Notes.
ghost use Rattle.std.specs.Prelude.{◌≡◌};
ghost use Rattle.note.specs.Fill.{after_fill};
ghost use Rattle.note.specs.Note.{start_of, key_up_of};
ghost use Rattle.svx.specs.Notes.{key_handed_in, note_of, shape_of, released_of, key_up_frame, sounding_of};
ghost use Rattle.svx.specs.Answers.{refusal_number};

use crate::hand::refusal_number;
use refusal::Refusal;
use voice::{Key, Note, Playing};

// key_up is 0 while the note is held: of a note that is handed in held it is ignored, and it comes back as 0.
#[repr(C)]
#[derive(Clone, Copy)]
pub struct SvxNote {
    pub octave: u8,
    pub velocity: u8,
    pub step: u32,
    pub rate: u32,
    pub frames: u32,
    pub released: bool,
    pub key_up: u32,
}

// The note after a fill, its refusal or 0, and how many frames of the block weren't over; 0 where refused.
#[repr(C)]
#[derive(Clone, Copy)]
pub struct SvxFilled {
    pub refusal: u32,
    pub sounding: u64,
    pub note: SvxNote,
}

fn key_of(released: bool, key_up: u32) -> Key
    ensures { result ≡ key_handed_in released key_up }
{
    if released {
        return Key::Released(key_up);
    }
    Key::Held
}

fn note_of(n: SvxNote) -> Note
    ensures { result ≡ note_of n }
{
    let key = key_of(n.released, n.key_up);
    let playing = Playing {
        octave: n.octave,
        velocity: n.velocity,
        step: n.step,
        rate: n.rate,
        key,
    };
    Note {
        playing,
        frames: n.frames,
    }
}

fn is_released(key: Key) -> bool
    ensures { result ≡ released_of key }
{
    match key {
        Key::Held => false,
        Key::Released(_) => true,
    }
}

fn key_up_frame(key: Key) -> u32
    ensures { result ≡ key_up_frame key }
{
    match key {
        Key::Held => 0,
        Key::Released(u) => u,
    }
}

fn shape_of(n: Note) -> SvxNote
    ensures { result ≡ shape_of n }
{
    let p = n.playing;
    let key = p.key;
    SvxNote {
        octave: p.octave,
        velocity: p.velocity,
        step: p.step,
        rate: p.rate,
        frames: n.frames,
        released: is_released(key),
        key_up: key_up_frame(key),
    }
}

fn sounding_of(answer: Result<usize, Refusal>) -> u64
    ensures { result ≡ sounding_of answer }
{
    answer.unwrap_or(0) as u64
}

#[unsafe(no_mangle)]
pub extern "C" fn svx_note_start(octave: u8, step: u32, rate: u32, velocity: u8) -> SvxNote
    ensures { result ≡ shape_of (start_of octave step rate velocity) }
{
    shape_of(Note::start(octave, step, rate, velocity))
}

#[unsafe(no_mangle)]
pub extern "C" fn svx_note_key_up(note: SvxNote) -> SvxNote
    ensures { result ≡ shape_of (key_up_of (note_of note)) }
{
    let before = note_of(note);
    shape_of(before.key_up())
}

#[unsafe(no_mangle)]
pub extern "C" fn svx_note_fill(
    note: SvxNote,
    sheet: &[u8],
    left: &[i8],
    right: &[i8],
    out: &mut [i16],
) -> SvxFilled
    ensures refusal { result.refusal ≡ refusal_number (after_fill sheet.now (record { left = left.entry.now; right = right.now }) (note_of note) out.old).answer }
    ensures sounding { result.sounding ≡ sounding_of (after_fill sheet.now (record { left = left.entry.now; right = right.now }) (note_of note) out.old).answer }
    ensures note { result.note ≡ shape_of (after_fill sheet.now (record { left = left.entry.now; right = right.now }) (note_of note) out.old).note }
    ensures buffer { out.new ≡ (after_fill sheet.now (record { left = left.entry.now; right = right.now }) (note_of note) out.old).buffer }
{
    let before = note_of(note);
    let filled = before.fill(sheet, left, right, out);
    let answer = filled.answer;
    let after = filled.note;
    SvxFilled {
        refusal: refusal_number(answer),
        sounding: sounding_of(answer),
        note: shape_of(after),
    }
}
