// One frame of a note: how the note plays, what of a voice doesn't change from frame to frame, and the value chain.
#![tactic(auto)]

mod chain;
mod fade;
mod gains;
mod playing;
mod shares;

pub use chain::{Frame, Gains, frame_at, over};
pub use gains::gains_of;
pub use playing::{Key, Playing};
