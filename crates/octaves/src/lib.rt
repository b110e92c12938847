// Parts of a voice's samples, handed back as parts of the caller's own slices: a side, an octave of a side, and the one-shot and the
// repeat part of an octave. Beside each stands the query that says where the part lies, or that there is none: an empty part and
// no part give the same slice.
#![tactic(auto)]

mod octave_parts;
mod part;
mod side;

pub use octave_parts::{
    loop_one_shot, loop_repeat, octave, octave_part, one_shot_part, repeat_part,
};
pub use part::Part;
pub use side::{Side, side_part, side_samples};
