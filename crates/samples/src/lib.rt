// Samples: raw bytes as samples and back, the two channels of a BODY, and the loudest sample.
#![tactic(auto)]

mod halves;
mod loudness;
mod raw;

pub use halves::{left_half, right_half};
pub use loudness::{Loudest, peak};
pub use raw::{decode_raw, encode_raw};
