// The fade of a sequence.
ghost use Rattle.std.specs.Prelude.{◌≡◌, ◌<◌, ◌^◌};
ghost use Rattle.sheet_layout.specs.Members.{segments_in, Whole};
ghost use Rattle.note_path.specs.Path.{joined_length};
ghost use Rattle.note_frame.specs.Gains.{with_fade};

use crate::chain::Gains;
use note_path::{power_of_two, sequence_length};
use small_chunks::Fade;

// The gains with a fade that begins with one of the segments and ends with the last.
pub(crate) fn with_fade(g: Gains, f: Fade, segments: &[u8], k: u8) -> Gains
    requires { (k < 64) × Whole 8 8 segments.now × (joined_length (2 ^ k) (segments_in segments.now) < 2 ^ 32) }
    ensures { result ≡ with_fade g f (segments_in segments.now) k }
{
    let scale = power_of_two(k);
    let fade_start = sequence_length(segments, f.segment as usize) * scale;
    let path_length = sequence_length(segments, segments.len()) * scale;
    Gains {
        fades: true,
        fade_start: fade_start as u32,
        path_length: path_length as u32,
        ..g
    }
}
