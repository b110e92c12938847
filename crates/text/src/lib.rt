// Texts: a payload cut at its first zero byte, ill-formed UTF-8 replaced by U+FFFD, trimmed of Unicode White_Space, and put on
// the sheet as a record for each byte.
//
// Nothing is copied on the way. White subsequences can be trimmed before the replacement as well as after it, so the part of the
// payload that is kept is found first; one pass over that part measures the text, another writes it.
#![tactic(auto)]

mod length;
mod part;
mod replacement;
mod white_space;
mod write;

pub use length::clean_len;
pub use part::{cut_at_zero, trimmed};
pub use write::put_text;
