// The voice header, VHDR: its fields, and what it says of the octaves, of the volume and of BODY's compression.
#![tactic(auto)]

mod compression;
mod voice_header;

pub use compression::{Compression, known_compression};
pub use voice_header::{VoiceHeader, read_header};
