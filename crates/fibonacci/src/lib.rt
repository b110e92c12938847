// Fibonacci-delta coding of a channel of samples: two nibbles to a byte, each a step from the sample before.
#![tactic(auto)]

mod decode;
mod encode;
mod pick;
mod search;
mod step;

pub use decode::{decode_first, fibonacci_decode_channel};
pub use encode::fibonacci_encode_channel;
pub use step::fib_step;
