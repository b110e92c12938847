// The small chunks beside the voice header, CHAN, PAN, the points of ATAK and RLSE, the segments of SEQN, and FADE: their
// fields, and the rules that they keep.
//
// A `read_..` asks that its field lies within the slice, for the crates above, which have judged lengths by then. A `parse`
// asks nothing: it answers 6 where the chunk is too short, and ignores what lies past the field.
#![tactic(auto)]

mod channel;
mod pan;
mod points;
mod sequence;

pub use channel::{ChannelAssignment, is_channel};
pub use pan::{Pan, PanWeights, held_to_unity, read_pan};
pub use points::{EgPoint, read_point};
pub use sequence::{Fade, SeqnSegment, read_fade, read_segment};
