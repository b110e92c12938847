// 21 to 23: the sequence and its fade.
ghost use Rattle.std.specs.Prelude.{◌≡◌};
ghost use Rattle.sheet_layout.specs.Layout.{layout_of};
ghost use Rattle.sheet.specs.Judge.{judged};
ghost use Rattle.sheet.specs.Read.{read_sheet};
ghost use Rattle.std.specs.Prelude.{Ok};
ghost use Rattle.refusal.specs.Rules.{first_holding};
ghost use Rattle.note_rules.specs.Rules.{sequence_rules};
ghost use Rattle.note_rules.specs.Answers.{beside_one_shot_by, fade_misses_by};

use note_path::sequence_valid;
use refusal::Refusal;
use sheet_layout::{Layout, sheet_fade, sheet_header, sheet_sequence};
use small_chunks::Fade;

// A sequence beside a one-shot part.
fn beside_one_shot(sequence: Option<usize>, one_shot: u32) -> bool
    ensures { result ≡ beside_one_shot_by sequence one_shot }
{
    sequence.is_some() && one_shot != 0
}

// A fade whose segment isn't among so many.
fn fade_misses(fade: Option<Fade>, segments: usize) -> bool
    ensures { result ≡ fade_misses_by fade segments }
{
    fade.is_some_and(|f| segments <= f.segment as usize)
}

// 21 to 23.
pub fn sequence_refusal(sheet: &[u8], l: Layout) -> Result<(), Refusal>
    requires { (judged sheet.now ≡ Ok tt) × (l ≡ layout_of (read_sheet sheet.now)) }
    ensures { result ≡ first_holding (sequence_rules (read_sheet sheet.now)) }
{
    let h = sheet_header(sheet);
    let start = l.sequence;
    let end = l.fade;
    let segments = &sheet[start..end];
    if !sequence_valid(segments, h.hi_octave_samples()) {
        return Err(Refusal::Segment);
    }
    let sequence = sheet_sequence(sheet, l);
    if beside_one_shot(sequence, h.one_shot_hi_samples) {
        return Err(Refusal::SequenceOneShot);
    }
    if fade_misses(sheet_fade(sheet, l), sequence.unwrap_or(0)) {
        return Err(Refusal::FadeSegment);
    }
    Ok(())
}
