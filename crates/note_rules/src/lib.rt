// What turns a fill back: 10, 13, 18, 21 to 25, 31 to 34 and 44, for a sheet that was judged sound.
#![tactic(auto)]

mod note_rule;
mod octave;
mod sequence;

ghost use Rattle.std.specs.Prelude.{◌≡◌};
ghost use Rattle.refusal.specs.Rules.{first_holding};
ghost use Rattle.sheet.specs.Judge.{judged};
ghost use Rattle.sheet.specs.Read.{read_sheet};
ghost use Rattle.std.specs.Prelude.{Ok};
ghost use Rattle.sheet_layout.specs.Layout.{layout_of};
ghost use Rattle.note_rules.specs.Rules.{fill_rules};

use note_frame::Playing;
pub use note_rule::{note_refusal, places_refusal};
pub use octave::octave_refusal;
use refusal::Refusal;
pub use sequence::sequence_refusal;
use sheet_layout::{Layout, sheet_header};
use voice_rules::voice_refusal;

// The number of the first rule that turns a fill back: of a note with so many frames filled, into so many places.
pub fn fill_refusal(
    sheet: &[u8],
    l: Layout,
    left: usize,
    right: usize,
    n: Playing,
    frames: u32,
    places: usize,
) -> Result<(), Refusal>
    requires { (judged sheet.now ≡ Ok tt) × (l ≡ layout_of (read_sheet sheet.now)) }
    ensures { result ≡ first_holding (fill_rules (read_sheet sheet.now) left right n frames places) }
{
    voice_refusal(sheet, left, right)?;
    sequence_refusal(sheet, l)?;
    octave_refusal(sheet, l, n.octave)?;
    places_refusal(places)?;
    let h = sheet_header(sheet);
    note_refusal(h, n, frames)
}
