// Files read and written, and an octave as WAVE.
ghost use Rattle.std.specs.Prelude.{◌≡◌, length};
ghost use Rattle.refusal.specs.Outcome.{answer, length_of, buffer_after};
ghost use Rattle.voice_read.specs.Parsed.{needed_by, after_reading};
ghost use Rattle.voice_read.specs.ReadVoice.{read_voice};
ghost use Rattle.voice_write.specs.WriteVoice.{write_sheet};
ghost use Rattle.wave.specs.Wave.{octave_wave_of};
ghost use Rattle.svx.specs.Answers.{refusal_number, handed_lengths, handed};

use crate::hand::{hand_length, hand_lengths};
use voice::{
    encode_voice, file_length, octave_wave, octave_wave_length, parse_voice, voice_lengths,
};

#[unsafe(no_mangle)]
pub extern "C" fn svx_voice_lengths(file: &[u8], lengths: &mut [u64; 3]) -> u32
    ensures result { result ≡ refusal_number (needed_by (read_voice file.now)) }
    ensures lengths { lengths.new ≡ handed_lengths (needed_by (read_voice file.now)) lengths.old }
{
    let parsed = voice_lengths(file);
    hand_lengths(parsed, lengths)
}

#[unsafe(no_mangle)]
pub extern "C" fn svx_parse_voice(
    file: &[u8],
    sheet: &mut [u8],
    left: &mut [i8],
    right: &mut [i8],
    lengths: &mut [u64; 3],
) -> u32
    ensures result { result ≡ refusal_number (after_reading file.now (record { sheet = sheet.entry.now; left = left.old; right = right.old })).parsed }
    ensures lengths { lengths.new ≡ handed_lengths (after_reading file.now (record { sheet = sheet.entry.now; left = left.old; right = right.old })).parsed lengths.old }
    ensures sheet { sheet.exit.now ≡ (after_reading file.now (record { sheet = sheet.entry.now; left = left.old; right = right.old })).buffers.sheet }
    ensures left { left.new ≡ (after_reading file.now (record { sheet = sheet.entry.now; left = left.old; right = right.old })).buffers.left }
    ensures right { right.new ≡ (after_reading file.now (record { sheet = sheet.entry.now; left = left.old; right = right.old })).buffers.right }
{
    let parsed = parse_voice(file, sheet, left, right);
    hand_lengths(parsed, lengths)
}

#[unsafe(no_mangle)]
pub extern "C" fn svx_file_length(sheet: &[u8], left: &[i8], right: &[i8], count: &mut u64) -> u32
    ensures result { result ≡ refusal_number (length_of (write_sheet sheet.now (record { left = left.entry.now; right = right.now }))) }
    ensures count { count.new ≡ handed (length_of (write_sheet sheet.now (record { left = left.entry.now; right = right.now }))) count.old }
{
    let output = file_length(sheet, left, right);
    hand_length(output, count)
}

#[unsafe(no_mangle)]
pub extern "C" fn svx_encode_voice(
    sheet: &[u8],
    left: &[i8],
    right: &[i8],
    file: &mut [u8],
    count: &mut u64,
) -> u32
    ensures result { result ≡ refusal_number (answer (write_sheet sheet.now (record { left = left.entry.now; right = right.now })) (length file.old)) }
    ensures count { count.new ≡ handed (answer (write_sheet sheet.now (record { left = left.entry.now; right = right.now })) (length file.old)) count.old }
    ensures buffer { file.new ≡ buffer_after (write_sheet sheet.now (record { left = left.entry.now; right = right.now })) file.old }
{
    let output = encode_voice(sheet, left, right, file);
    hand_length(output, count)
}

#[unsafe(no_mangle)]
pub extern "C" fn svx_octave_wave_length(
    sheet: &[u8],
    left: &[i8],
    right: &[i8],
    octave: u8,
    count: &mut u64,
) -> u32
    ensures result { result ≡ refusal_number (length_of (octave_wave_of sheet.now (record { left = left.entry.now; right = right.now }) octave)) }
    ensures count { count.new ≡ handed (length_of (octave_wave_of sheet.now (record { left = left.entry.now; right = right.now }) octave)) count.old }
{
    let output = octave_wave_length(sheet, left, right, octave);
    hand_length(output, count)
}

#[unsafe(no_mangle)]
pub extern "C" fn svx_octave_wave(
    sheet: &[u8],
    left: &[i8],
    right: &[i8],
    octave: u8,
    file: &mut [u8],
    count: &mut u64,
) -> u32
    ensures result { result ≡ refusal_number (answer (octave_wave_of sheet.now (record { left = left.entry.now; right = right.now }) octave) (length file.old)) }
    ensures count { count.new ≡ handed (answer (octave_wave_of sheet.now (record { left = left.entry.now; right = right.now }) octave) (length file.old)) count.old }
    ensures buffer { file.new ≡ buffer_after (octave_wave_of sheet.now (record { left = left.entry.now; right = right.now }) octave) file.old }
{
    let output = octave_wave(sheet, left, right, octave, file);
    hand_length(output, count)
}
