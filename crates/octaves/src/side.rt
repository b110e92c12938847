// The samples of a side.
ghost use Rattle.std.specs.Prelude.{◌≡◌, length};
ghost use Rattle.sheet.specs.Judge.{judged};
ghost use Rattle.sheet.specs.Read.{read_sheet};
ghost use Rattle.std.specs.Prelude.{Ok};
ghost use Rattle.octaves.specs.Part.{part_of};
ghost use Rattle.octaves.specs.Side.{of_side, voice_side, side_part};

use crate::part::{Part, part_of};
use sheet::judge_sheet;
use sheet_layout::{sheet_header, sheet_stereo};

#[derive(Clone, Copy)]
pub enum Side {
    Left,
    Right,
}

// The part that a side of a sound sheet has of a buffer of so many places.
fn sound_side(sheet: &[u8], side: Side, places: usize) -> Option<Part>
    requires { judged sheet.now ≡ Ok tt }
    ensures { result ≡ voice_side (read_sheet sheet.now) side places }
{
    match side {
        Side::Left => {}
        Side::Right => {
            if !sheet_stereo(sheet) {
                return None;
            }
        }
    }
    let h = sheet_header(sheet);
    if h.hi_octave_samples() == 0 {
        return Some(Part {
            start: 0,
            length: places,
        });
    }
    let length = h.total_samples_per_channel().ok()? as usize;
    if places < length {
        return None;
    }
    Some(Part { start: 0, length })
}

// Where the samples of a side lie in its buffer of so many places: at its front, as many as all octaves have, or all if hi = 0. There
// are none where the sheet is refused, where one channel has no right side, and where the buffer is shorter.
pub fn side_part(sheet: &[u8], side: Side, places: usize) -> Option<Part>
    ensures { result ≡ side_part sheet.now side places }
{
    judge_sheet(sheet).ok()?;
    sound_side(sheet, side, places)
}

// The samples of a side, as a part of that side's own buffer.
pub fn side_samples<'a>(sheet: &[u8], left: &'a [i8], right: &'a [i8], side: Side) -> &'a [i8]
    ensures contents { result.now ≡ part_of (side_part sheet.now side (length (of_side side left.now right.now))) (of_side side left.now right.now) }
    ensures place { result.ref_ptr ≡ of_side side left.entry.ref_ptr right.entry.ref_ptr }
{
    match side {
        Side::Left => part_of(left, side_part(sheet, Side::Left, left.len())),
        Side::Right => part_of(right, side_part(sheet, Side::Right, right.len())),
    }
}
