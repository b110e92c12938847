// What doesn't change from frame to frame: from the sheet volume, shares of the sides, and the fade; from the note its velocity.
ghost use Rattle.std.specs.Prelude.{◌≡◌, ◌<◌};
ghost use Rattle.sheet_layout.specs.Layout.{layout_of};
ghost use Rattle.sheet.specs.Judge.{judged};
ghost use Rattle.sheet.specs.Read.{read_sheet};
ghost use Rattle.std.specs.Prelude.{Ok};
ghost use Rattle.note_frame.specs.Gains.{gains_of, FadeShort};

use crate::chain::Gains;
use crate::fade::with_fade;
use crate::shares::side_shares;
use sheet_layout::{Layout, sheet_channel, sheet_fade, sheet_header, sheet_pan, sheet_stereo};

// The gains of a sound sheet in octave k, struck at a velocity.
pub fn gains_of(sheet: &[u8], l: Layout, k: u8, velocity: u8) -> Gains
    requires { (judged sheet.now ≡ Ok tt) × (l ≡ layout_of (read_sheet sheet.now)) × (k < 64) × FadeShort (read_sheet sheet.now) k }
    ensures { result ≡ gains_of (read_sheet sheet.now) k velocity }
{
    let h = sheet_header(sheet);
    let s = side_shares(sheet_channel(sheet, l), sheet_pan(sheet, l));
    let g = Gains {
        volume: h.volume.min(65536),
        velocity: velocity as u32,
        left_share: s.left,
        right_share: s.right,
        stereo: sheet_stereo(sheet),
        fades: false,
        fade_start: 0,
        path_length: 0,
    };
    match sheet_fade(sheet, l) {
        None => g,
        Some(f) => {
            let start = l.sequence;
            let end = l.fade;
            let segments = &sheet[start..end];
            with_fade(g, f, segments, k)
        }
    }
}
