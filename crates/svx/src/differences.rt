// A channel in difference order, and back.
ghost use Rattle.std.specs.Prelude.{◌≡◌, length};
ghost use Rattle.refusal.specs.Outcome.{answer, buffer_after};
ghost use Rattle.vault.specs.DifferenceOrder.{difference_order, difference_restore};
ghost use Rattle.svx.specs.Answers.{refusal_number, handed};
ghost use Rattle.svx.specs.Shapes.{octave_header};

use crate::hand::hand_length;
use crate::parts::octave_header;
use voice::{difference_order, difference_restore};

#[unsafe(no_mangle)]
pub extern "C" fn svx_difference_order(
    one_shot: u32,
    repeat: u32,
    octaves: u8,
    samples: &[i8],
    out: &mut [i8],
    count: &mut u64,
) -> u32
    ensures result { result ≡ refusal_number (answer (difference_order (octave_header one_shot repeat octaves) samples.now) (length out.old)) }
    ensures count { count.new ≡ handed (answer (difference_order (octave_header one_shot repeat octaves) samples.now) (length out.old)) count.old }
    ensures buffer { out.new ≡ buffer_after (difference_order (octave_header one_shot repeat octaves) samples.now) out.old }
{
    let output = difference_order(octave_header(one_shot, repeat, octaves), samples, out);
    hand_length(output, count)
}

#[unsafe(no_mangle)]
pub extern "C" fn svx_difference_restore(
    one_shot: u32,
    repeat: u32,
    octaves: u8,
    values: &[i8],
    out: &mut [i8],
    count: &mut u64,
) -> u32
    ensures result { result ≡ refusal_number (answer (difference_restore (octave_header one_shot repeat octaves) values.now) (length out.old)) }
    ensures count { count.new ≡ handed (answer (difference_restore (octave_header one_shot repeat octaves) values.now) (length out.old)) count.old }
    ensures buffer { out.new ≡ buffer_after (difference_restore (octave_header one_shot repeat octaves) values.now) out.old }
{
    let output = difference_restore(octave_header(one_shot, repeat, octaves), values, out);
    hand_length(output, count)
}
