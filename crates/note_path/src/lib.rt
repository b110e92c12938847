// The path of a note: which sample sounds at each step. A cursor knows the run in hand, a stretch of the path whose samples lie side
// by side, so that within a run a step costs one subtraction.
#![tactic(auto)]

mod run;
mod segments;
mod sequence;

pub use run::{Path, Run, path_of, power_of_two, run_start, run_to};
pub use sequence::{sequence_length, sequence_valid};
