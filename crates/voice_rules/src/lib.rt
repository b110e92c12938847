// The voice's own rules, 10, 13 and 18, for a sheet that was judged sound.
#![tactic(auto)]

ghost use Rattle.std.specs.Prelude.{◌≡◌};
ghost use Rattle.sheet.specs.Judge.{judged};
ghost use Rattle.sheet.specs.Read.{read_sheet};
ghost use Rattle.std.specs.Prelude.{Ok};
ghost use Rattle.refusal.specs.Rules.{first_holding};
ghost use Rattle.voice_rules.specs.Rules.{voice_rules};

use body_read::is_suited;
use refusal::Refusal;
use sheet_layout::{sheet_header, sheet_stereo};

// The first rule that turns the voice back. The sides have so many samples.
pub fn voice_refusal(sheet: &[u8], left: usize, right: usize) -> Result<(), Refusal>
    requires { judged sheet.now ≡ Ok tt }
    ensures { result ≡ first_holding (voice_rules (read_sheet sheet.now) left right) }
{
    let h = sheet_header(sheet);
    if 1 < h.compression_byte {
        return Err(Refusal::UnknownCompression);
    }
    h.total_samples_per_channel()?;
    if is_suited(h, sheet_stereo(sheet), left, right) {
        return Ok(());
    }
    Err(Refusal::SampleLengths)
}
