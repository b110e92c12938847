// 10, 13, 18, 21 to 23, 25, and entry by entry 24, 31 to 33 and 44: the voice, the buffer's places, and the entries on that voice.
ghost use Rattle.std.specs.Prelude.{◌≡◌};
ghost use Rattle.refusal.specs.Rules.{first_holding};
ghost use Rattle.sheet.specs.Judge.{judged};
ghost use Rattle.sheet.specs.Read.{read_sheet};
ghost use Rattle.std.specs.Prelude.{Ok};
ghost use Rattle.sheet_layout.specs.Layout.{layout_of};
ghost use Rattle.ensemble_rules.specs.Rules.{entry_rules, entries_rules, play_rules};

use ensemble_score::Entry;
use note_frame::{Key, Playing};
use note_rules::{note_refusal, octave_refusal, places_refusal, sequence_refusal};
use refusal::Refusal;
use sheet_layout::{Layout, sheet_header};
use voice_rules::voice_refusal;

// 24, 31, 32, 33 and 44 of an entry. Its note is judged as a held one that begins, so that no key-up is ahead.
fn entry_refusal(sheet: &[u8], l: Layout, e: Entry, rate: u32) -> Result<(), Refusal>
    requires { (judged sheet.now ≡ Ok tt) × (l ≡ layout_of (read_sheet sheet.now)) }
    ensures { result ≡ first_holding (entry_rules (read_sheet sheet.now) rate e) }
{
    octave_refusal(sheet, l, e.octave)?;
    let h = sheet_header(sheet);
    let playing = Playing {
        octave: e.octave,
        velocity: e.velocity,
        step: e.step,
        rate,
        key: Key::Held,
    };
    note_refusal(h, playing, 0)
}

// The refusal of the first entry that is turned back so.
fn entries_refusal(sheet: &[u8], l: Layout, score: &[Entry], rate: u32) -> Result<(), Refusal>
    requires { (judged sheet.now ≡ Ok tt) × (l ≡ layout_of (read_sheet sheet.now)) }
    ensures { result ≡ first_holding (entries_rules (read_sheet sheet.now) rate score.now) }
{
    for e in score {
        entry_refusal(sheet, l, *e, rate)?;
    }
    Ok(())
}

// What turns a mix back once score and sheet are accepted: sides of so many samples, a buffer of so many places.
pub fn play_refusal(
    sheet: &[u8],
    l: Layout,
    left: usize,
    right: usize,
    score: &[Entry],
    rate: u32,
    places: usize,
) -> Result<(), Refusal>
    requires { (judged sheet.now ≡ Ok tt) × (l ≡ layout_of (read_sheet sheet.now)) }
    ensures { result ≡ first_holding (play_rules (read_sheet sheet.now) left right score.now rate places) }
{
    voice_refusal(sheet, left, right)?;
    sequence_refusal(sheet, l)?;
    places_refusal(places)?;
    entries_refusal(sheet, l, score, rate)
}
