// A whole file.
ghost use Rattle.std.specs.Prelude.{◌≡◌};
ghost use Rattle.voice_read.specs.Parsed.{needed_by, after_reading};
ghost use Rattle.voice_read.specs.ReadVoice.{head_refusal, read_voice};

use crate::chunks::{Lengths, form_lengths, write_outputs};
use chunk::form;
use field::read32;
use refusal::Refusal;

// 1 to 3 for what is no FORM 8SVX.
fn head_refusal(file: &[u8]) -> Result<(), Refusal>
    ensures { result ≡ head_refusal file.now }
{
    if file.len() < 12 {
        return Err(Refusal::FileShort);
    }
    if read32(file, 0) != form::FORM {
        return Err(Refusal::NotForm);
    }
    if read32(file, 8) != form::FORM_TYPE {
        return Err(Refusal::Not8svx);
    }
    Ok(())
}

// The lengths that reading a file needs; refused as reading is, but never by 20.
pub fn voice_lengths(file: &[u8]) -> Result<Lengths, Refusal>
    ensures { result ≡ needed_by (read_voice file.now) }
{
    head_refusal(file)?;
    form_lengths(form(file))
}

// The voice of a file: its sheet and the samples of both sides, each at the front of its buffer. If one is short, none is written.
pub fn parse_voice(
    file: &[u8],
    sheet: &mut [u8],
    left: &mut [i8],
    right: &mut [i8],
) -> Result<Lengths, Refusal>
    ensures result { result ≡ (after_reading file.now (record { sheet = sheet.entry.now; left = left.old; right = right.old })).parsed }
    ensures sheet { sheet.exit.now ≡ (after_reading file.now (record { sheet = sheet.entry.now; left = left.old; right = right.old })).buffers.sheet }
    ensures left { left.new ≡ (after_reading file.now (record { sheet = sheet.entry.now; left = left.old; right = right.old })).buffers.left }
    ensures right { right.new ≡ (after_reading file.now (record { sheet = sheet.entry.now; left = left.old; right = right.old })).buffers.right }
{
    let l = voice_lengths(file)?;
    if sheet.len() < l.sheet {
        return Err(Refusal::BufferShort);
    }
    if left.len() < l.left {
        return Err(Refusal::BufferShort);
    }
    if right.len() < l.right {
        return Err(Refusal::BufferShort);
    }
    write_outputs(form(file), sheet, left, right);
    Ok(l)
}
