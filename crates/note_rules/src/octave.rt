// 24: the sequence in the note's octave.
ghost use Rattle.std.specs.Prelude.{◌≡◌, ◌&&◌, ◌^◌, ltb};
ghost use Rattle.refusal.specs.Rules.{first_holding};
ghost use Rattle.header.specs.Octaves.{octave_there};
ghost use Rattle.sheet.specs.Judge.{judged};
ghost use Rattle.sheet.specs.Read.{read_sheet};
ghost use Rattle.std.specs.Prelude.{Ok};
ghost use Rattle.sheet_layout.specs.Layout.{layout_of};
ghost use Rattle.sheet_layout.specs.Members.{segments_in, Whole};
ghost use Rattle.note_path.specs.Path.{joined_length};
ghost use Rattle.note_rules.specs.Rules.{octave_rules};

use header::VoiceHeader;
use note_path::sequence_length;
use refusal::Refusal;
use sheet_layout::{Layout, sheet_header};

// A sequence that is too long in octave k, where there is one. Compared in the highest octave, to stay within 64 bits.
fn too_long(h: VoiceHeader, segments: &[u8], k: u8) -> bool
    requires { Whole 8 8 segments.now }
    ensures { result ≡ (octave_there h k && ltb 4294967295 (joined_length (2 ^ k) (segments_in segments.now))) }
{
    if !h.has_octave(k) {
        return false;
    }
    let joined = sequence_length(segments, segments.len());
    if 32 <= k {
        return 0 < joined;
    }
    let most: usize = 0xffff_ffff >> k;
    most < joined
}

// 24.
pub fn octave_refusal(sheet: &[u8], l: Layout, k: u8) -> Result<(), Refusal>
    requires { (judged sheet.now ≡ Ok tt) × (l ≡ layout_of (read_sheet sheet.now)) }
    ensures { result ≡ first_holding (octave_rules (read_sheet sheet.now) k) }
{
    let h = sheet_header(sheet);
    let start = l.sequence;
    let end = l.fade;
    let segments = &sheet[start..end];
    if too_long(h, segments, k) {
        return Err(Refusal::SequenceLength);
    }
    Ok(())
}
