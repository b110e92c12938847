// The voice, into three lent buffers.
ghost use Rattle.std.specs.Prelude.{◌≡◌, ◌≤◌, length};
ghost use Rattle.laws.specs.Buffer.{written};
ghost use Rattle.sheet.specs.Flat.{flat};
ghost use Rattle.drawn.specs.DrawnVoice.{plain_voice, after_drawing};

use crate::draw::put_samples;
use crate::plan::{lengths_of, plan_of};
use field::put_record;
use header::VoiceHeader;
use refusal::Refusal;
use sheet::put_channel;
use small_chunks::ChannelAssignment;
use voice_read::Lengths;

// The sheet, at the front of a buffer that has room for it.
fn put_sheet(h: VoiceHeader, stereo: bool, sheet: &mut [u8])
    requires { length (flat (plain_voice h stereo)) ≤ length sheet.old }
    ensures { sheet.new ≡ written (flat (plain_voice h stereo)) sheet.old }
{
    let body = h.write();
    let end = put_record(&body, 1, sheet, 0);
    if stereo {
        put_channel(ChannelAssignment::Stereo, sheet, end);
    }
}

// The voice that is drawn from a number: its sheet and the samples of both sides, each at the front of its buffer. 48 where the number
// is 0; 20 if a buffer is short, and then none is written. Buffers of 23, 1,890 and 1,890 always do.
pub fn drawn_voice(
    number: u32,
    sheet: &mut [u8],
    left: &mut [i8],
    right: &mut [i8],
) -> Result<Lengths, Refusal>
    ensures result { result ≡ (after_drawing number (record { sheet = sheet.entry.now; left = left.old; right = right.old })).parsed }
    ensures sheet { sheet.exit.now ≡ (after_drawing number (record { sheet = sheet.entry.now; left = left.old; right = right.old })).buffers.sheet }
    ensures left { left.new ≡ (after_drawing number (record { sheet = sheet.entry.now; left = left.old; right = right.old })).buffers.left }
    ensures right { right.new ≡ (after_drawing number (record { sheet = sheet.entry.now; left = left.old; right = right.old })).buffers.right }
{
    if number == 0 {
        return Err(Refusal::ZeroNumber);
    }
    let plan = plan_of(number);
    let l = lengths_of(plan.header, plan.stereo);
    if sheet.len() < l.sheet {
        return Err(Refusal::BufferShort);
    }
    if left.len() < l.left {
        return Err(Refusal::BufferShort);
    }
    if right.len() < l.right {
        return Err(Refusal::BufferShort);
    }
    put_sheet(plan.header, plan.stereo, sheet);
    let last = put_samples(plan.last, l.left, left);
    put_samples(last, l.right, right);
    Ok(l)
}
