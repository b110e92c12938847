// A channel in difference order, the form in which a vault stores it, and back.
#![tactic(auto)]

mod channel;
mod octave;

pub use channel::{difference_order, difference_restore};
