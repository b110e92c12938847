// UTF-8 by table 3-7 of the Unicode Standard: the bytes of a slice taken as well-formed code unit sequences of one scalar
// value and maximal subparts of ill-formed ones, or judged one byte at a time where they do not lie side by side.
#![tactic(auto)]

mod bytewise;
mod step;
mod table;

pub use bytewise::{between, feed, is_between};
pub use step::{Utf8Part, step_at, well_formed};
pub use table::Follow;
