// What turns a mix back: 46, 45 and 47, the score's own; and, for a sheet that was judged sound, 10, 13, 18, 21 to 23, 25, and entry by
// entry 24, 31 to 33 and 44.
#![tactic(auto)]

mod order;
mod play;

pub use order::score_refusal;
pub use play::play_refusal;
