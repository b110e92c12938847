// Fields of files: big-endian numbers as FORM has them and little-endian ones as RIFF has them, signed samples with their sums and
// differences, and stores at a place of a lent buffer.
//
// The functions that read at a place ask that the field lies within the slice: the crates above have judged lengths by
// then. Those that store pass over what does not fit, so a writer that is run over an empty slice measures.
#![tactic(auto)]

mod little;
mod number;
mod signed;
mod store;
mod wrap;

pub use little::{put16_le, put32_le};
pub use number::{bytes32, put16, put32, read_i32, read16, read32};
pub use signed::{bits_of_i32, byte_of_sample, i32_of_bits, sample_of_byte};
pub use store::{put_all, put_byte, put_record, put_tagged};
pub use wrap::{sample_difference, sample_sum};
