// A voice drawn from a number.
ghost use Rattle.std.specs.Prelude.{◌≡◌};
ghost use Rattle.drawn.specs.DrawnVoice.{after_drawing};
ghost use Rattle.svx.specs.Answers.{refusal_number, handed_lengths};

use crate::hand::hand_lengths;
use voice::drawn_voice;

#[unsafe(no_mangle)]
pub extern "C" fn svx_drawn_voice(
    number: u32,
    sheet: &mut [u8],
    left: &mut [i8],
    right: &mut [i8],
    lengths: &mut [u64; 3],
) -> u32
    ensures result { result ≡ refusal_number (after_drawing number (record { sheet = sheet.entry.now; left = left.old; right = right.old })).parsed }
    ensures lengths { lengths.new ≡ handed_lengths (after_drawing number (record { sheet = sheet.entry.now; left = left.old; right = right.old })).parsed lengths.old }
    ensures sheet { sheet.exit.now ≡ (after_drawing number (record { sheet = sheet.entry.now; left = left.old; right = right.old })).buffers.sheet }
    ensures left { left.new ≡ (after_drawing number (record { sheet = sheet.entry.now; left = left.old; right = right.old })).buffers.left }
    ensures right { right.new ≡ (after_drawing number (record { sheet = sheet.entry.now; left = left.old; right = right.old })).buffers.right }
{
    let parsed = drawn_voice(number, sheet, left, right);
    hand_lengths(parsed, lengths)
}
