// The file's bytes.
ghost use Rattle.std.specs.Prelude.{◌≡◌, length};
ghost use Rattle.header.specs.Compression.{known_compression};
ghost use Rattle.std.specs.Prelude.{Ok};
ghost use Rattle.refusal.specs.Outcome.{answer, buffer_after};
ghost use Rattle.refusal.specs.Room.{Room};
ghost use Rattle.sheet.specs.Read.{read_sheet};
ghost use Rattle.voice_write.specs.WriteVoice.{write_sheet};

use crate::measure::file_length;
use body_write::put_body;
use field::put32;
use header::Compression;
use refusal::Refusal;
use sheet_layout::{sheet_header, sheet_stereo};
use sheet_write::put_chunks;

// The whole file, n bytes, for a compression that is known.
fn write_known(sheet: &[u8], c: Compression, left: &[i8], right: &[i8], n: usize, file: &mut [u8])
    requires { (known_compression (read_sheet sheet.now).header.compression_byte ≡ Ok c)
        × Room (write_sheet sheet.now (record { left = left.now; right = right.now })) n (length file.old) }
    ensures { file.new ≡ buffer_after (write_sheet sheet.now (record { left = left.entry.now; right = right.now })) file.old }
{
    let held = (n - 8) as u32;
    let sized = put32(file, 0, form::FORM);
    let typed = put32(file, sized, held);
    let chunks = put32(file, typed, form::FORM_TYPE);
    let body = put_chunks(sheet, file, chunks);
    put_body(c, sheet_stereo(sheet), left, right, file, body);
}

// The whole file, n bytes.
fn write_file(sheet: &[u8], left: &[i8], right: &[i8], n: usize, file: &mut [u8])
    requires { Room (write_sheet sheet.now (record { left = left.now; right = right.now })) n (length file.old) }
    ensures { file.new ≡ buffer_after (write_sheet sheet.now (record { left = left.entry.now; right = right.now })) file.old }
{
    if let Ok(c) = sheet_header(sheet).compression() {
        write_known(sheet, c, left, right, n, file);
    }
}

// The file of a sheet and the samples of both sides; 15 to 17, 10, 13, 18, 19, then 20 where it doesn't fit.
pub fn encode_voice(
    sheet: &[u8],
    left: &[i8],
    right: &[i8],
    file: &mut [u8],
) -> Result<usize, Refusal>
    ensures result { result ≡ answer (write_sheet sheet.now (record { left = left.entry.now; right = right.now })) (length file.old) }
    ensures buffer { file.new ≡ buffer_after (write_sheet sheet.now (record { left = left.entry.now; right = right.now })) file.old }
{
    let n = file_length(sheet, left, right)?;
    if file.len() < n {
        return Err(Refusal::BufferShort);
    }
    write_file(sheet, left, right, n, file);
    Ok(n)
}
