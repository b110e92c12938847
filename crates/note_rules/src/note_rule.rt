// 25, 31 to 34 and 44: the buffer's places, and the note.
ghost use Rattle.std.specs.Prelude.{◌≡◌};
ghost use Rattle.refusal.specs.Rules.{first_holding};
ghost use Rattle.note_rules.specs.Rules.{place_rules, note_rules, speed_rules, velocity_rules, key_up_ahead};

use header::VoiceHeader;
use note_frame::{Key, Playing};
use refusal::Refusal;

// A key-up later than the frames filled.
fn key_up_ahead(key: Key, frames: u32) -> bool
    ensures { result ≡ key_up_ahead key frames }
{
    match key {
        Key::Held => false,
        Key::Released(u) => frames < u,
    }
}

// 32 and 33.
fn speed_refusal(step: u32, rate: u32) -> Result<(), Refusal>
    ensures { result ≡ first_holding (speed_rules step rate) }
{
    if step == 0 || 16777216 < step {
        return Err(Refusal::Step);
    }
    if rate == 0 || 192000 < rate {
        return Err(Refusal::Rate);
    }
    Ok(())
}

// 44.
fn velocity_refusal(velocity: u8) -> Result<(), Refusal>
    ensures { result ≡ first_holding (velocity_rules velocity) }
{
    if velocity == 0 || 127 < velocity {
        return Err(Refusal::Velocity);
    }
    Ok(())
}

// 25.
pub fn places_refusal(places: usize) -> Result<(), Refusal>
    ensures { result ≡ first_holding (place_rules places) }
{
    if places % 2 == 1 {
        return Err(Refusal::OddPlaces);
    }
    Ok(())
}

// 31 to 34 and 44, of a note with so many frames filled.
pub fn note_refusal(h: VoiceHeader, n: Playing, frames: u32) -> Result<(), Refusal>
    ensures { result ≡ first_holding (note_rules h n frames) }
{
    if !h.has_octave(n.octave) {
        return Err(Refusal::NoOctave);
    }
    speed_refusal(n.step, n.rate)?;
    if key_up_ahead(n.key, frames) {
        return Err(Refusal::KeyUp);
    }
    velocity_refusal(n.velocity)
}
