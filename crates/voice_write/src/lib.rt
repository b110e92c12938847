// A file written, from a sheet and the samples of both sides.
#![tactic(auto)]

mod encode;
mod measure;

pub use encode::encode_voice;
pub use measure::file_length;
