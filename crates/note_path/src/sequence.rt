// The segments of a sequence: whether they may be played, and how long they are together.
ghost use Rattle.std.specs.Prelude.{◌≡◌, ◌^◌, min, take};
ghost use Rattle.sheet_layout.specs.Members.{segments_in, Whole};
ghost use Rattle.note_path.specs.Path.{joined_length, all_valid};

use crate::segments::Segments;

// That every segment is valid for a highest octave of `hi` samples.
pub fn sequence_valid(segments: &[u8], hi: u64) -> bool
    requires { Whole 8 8 segments.now }
    ensures { result ≡ all_valid (segments_in segments.now) hi }
{
    Segments {
        part: segments,
        at: 0,
    }
    .all(|s| s.validate(hi).is_ok())
}

// The samples of the first `count` segments joined, in the highest octave; 2^32 stands for any more, so that the sum stays small and
// never saturates.
pub fn sequence_length(segments: &[u8], count: usize) -> usize
    requires { Whole 8 8 segments.now }
    ensures { result ≡ min (joined_length 1 (take count (segments_in segments.now))) (2 ^ 32) }
{
    Segments {
        part: segments,
        at: 0,
    }
    .take(count)
    .fold(
        0,
        |sum: usize, s| sum.saturating_add(s.len() as usize).min(0x1_0000_0000),
    )
}
