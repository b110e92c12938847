// The file's bytes.
ghost use Rattle.std.specs.Prelude.{◌≡◌, length};
ghost use Rattle.refusal.specs.Outcome.{answer, buffer_after};
ghost use Rattle.refusal.specs.Room.{Room};
ghost use Rattle.wave.specs.Wave.{channels_of, octave_wave_of};

use crate::front::put_front;
use crate::measure::{octave_wave_length, values_length};
use crate::values::put_values;
use chunk::put_pad;
use octaves::octave;
use refusal::Refusal;
use sheet_layout::{sheet_header, sheet_stereo};

// As many as fmt says.
fn channel_count(stereo: bool) -> u16
    ensures { result ≡ channels_of stereo }
{
    if stereo {
        return 2;
    }
    1
}

// The whole file, n bytes.
fn write_wave(sheet: &[u8], left: &[i8], right: &[i8], k: u8, n: usize, file: &mut [u8])
    requires { Room (octave_wave_of sheet.now (record { left = left.now; right = right.now }) k) n (length file.old) }
    ensures { file.new ≡ buffer_after (octave_wave_of sheet.now (record { left = left.entry.now; right = right.now }) k) file.old }
{
    let h = sheet_header(sheet);
    let stereo = sheet_stereo(sheet);
    let lefts = octave(h, left, k);
    let rights = octave(h, right, k);
    let values = values_length(stereo, lefts.len());
    let held = (n - 8) as u32;
    let begun = put_front(
        channel_count(stereo),
        h.samples_per_sec,
        held,
        values as u32,
        file,
    );
    let end = put_values(stereo, lefts, rights, file, begun);
    put_pad(values, file, end);
}

// An octave as WAVE, and the file's length; 15 to 17, 10, 13, 18, 31, 41, 19, then 20 where it doesn't fit.
pub fn octave_wave(
    sheet: &[u8],
    left: &[i8],
    right: &[i8],
    octave: u8,
    file: &mut [u8],
) -> Result<usize, Refusal>
    ensures result { result ≡ answer (octave_wave_of sheet.now (record { left = left.entry.now; right = right.now }) octave) (length file.old) }
    ensures buffer { file.new ≡ buffer_after (octave_wave_of sheet.now (record { left = left.entry.now; right = right.now }) octave) file.old }
{
    let n = octave_wave_length(sheet, left, right, octave)?;
    if file.len() < n {
        return Err(Refusal::BufferShort);
    }
    write_wave(sheet, left, right, octave, n, file);
    Ok(n)
}
