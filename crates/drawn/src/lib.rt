// A voice drawn from a number, so that hosts on different machines can be put under the same load.
#![tactic(auto)]

mod draw;
mod plan;
mod write;

pub use write::drawn_voice;
