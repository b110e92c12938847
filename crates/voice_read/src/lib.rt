// A file read: its voice as a sheet, and the samples of both sides, into three lent buffers.
#![tactic(auto)]

mod chunks;
mod parse;

pub use chunks::Lengths;
pub use parse::{parse_voice, voice_lengths};
