// The sides of a voice: how many samples BODY gives to each, those samples, and which lengths suit a header.
#![tactic(auto)]

mod decode;
mod lengths;

pub use decode::decode_sides;
pub use lengths::{SideLengths, is_suited, side_lengths};
