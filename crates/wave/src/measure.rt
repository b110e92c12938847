// How long the file is.
ghost use Rattle.std.specs.Prelude.{◌≡◌, ◌++◌, ◌*◌, ◌^◌, ◌<◌, length};
ghost use Rattle.refusal.specs.Outcome.{length_of};
ghost use Rattle.refusal.specs.Rules.{first_holding};
ghost use Rattle.sheet.specs.Judge.{judged};
ghost use Rattle.sheet.specs.Read.{read_sheet};
ghost use Rattle.std.specs.Prelude.{Ok};
ghost use Rattle.voice_rules.specs.Rules.{voice_rules};
ghost use Rattle.wave.specs.Wave.{channels_of, source_rules, octave_wave, octave_wave_of};
ghost use Rattle.wave.specs.Helpers.{length_for};

use octaves::octave;
use refusal::Refusal;
use sheet::judge_sheet;
use sheet_layout::{sheet_header, sheet_stereo};
use voice_rules::voice_refusal;

// The bytes of the values, for n samples a side.
pub(crate) fn values_length(stereo: bool, n: usize) -> usize
    requires { n < 2 ^ 32 }
    ensures { result ≡ channels_of stereo * n }
{
    if stereo {
        return 2 * n;
    }
    n
}

// The file's length, for n samples a side; 19.
fn held_length(stereo: bool, n: usize) -> Result<usize, Refusal>
    ensures { result ≡ length_for (channels_of stereo * n) }
{
    if 0xffff_ffff < n {
        return Err(Refusal::FormLength);
    }
    let values = values_length(stereo, n);
    let held = 36 + values + values % 2;
    if 0xffff_ffff < held {
        return Err(Refusal::FormLength);
    }
    let length = held + 8;
    Ok(length)
}

// 10, 13, 18, 31, 41, for a sound sheet.
fn source_refusal(sheet: &[u8], left: usize, right: usize, k: u8) -> Result<(), Refusal>
    requires { judged sheet.now ≡ Ok tt }
    ensures { result ≡ first_holding (voice_rules (read_sheet sheet.now) left right ++ source_rules (read_sheet sheet.now).header k) }
{
    voice_refusal(sheet, left, right)?;
    let h = sheet_header(sheet);
    if !h.has_octave(k) {
        return Err(Refusal::NoOctave);
    }
    if h.samples_per_sec == 0 {
        return Err(Refusal::VoiceRate);
    }
    Ok(())
}

// The file's length, for a sound sheet.
fn sound_length(sheet: &[u8], left: &[i8], right: &[i8], k: u8) -> Result<usize, Refusal>
    requires { judged sheet.now ≡ Ok tt }
    ensures { result ≡ length_of (octave_wave (read_sheet sheet.now) (record { left = left.entry.now; right = right.now }) k) }
{
    source_refusal(sheet, left.len(), right.len(), k)?;
    let h = sheet_header(sheet);
    let samples = octave(h, left, k);
    held_length(sheet_stereo(sheet), samples.len())
}

// The length that writing an octave as WAVE needs; refused as writing is, but never by 20.
pub fn octave_wave_length(
    sheet: &[u8],
    left: &[i8],
    right: &[i8],
    octave: u8,
) -> Result<usize, Refusal>
    ensures { result ≡ length_of (octave_wave_of sheet.now (record { left = left.entry.now; right = right.now }) octave) }
{
    judge_sheet(sheet)?;
    sound_length(sheet, left, right, octave)
}
