// The sheet: a voice in flat form, as records of one byte of kind and a body whose length the kind fixes.
#![tactic(auto)]

mod judge;
mod record;
mod write;

pub use judge::judge_sheet;
pub use record::{Record, record_at};
pub use write::{put_channel, put_text};
