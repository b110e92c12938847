// The door of the library: every entry that users call, with its types, and nothing else. None asks anything of its caller, and none
// refuses by a number that demand 1 doesn't list for it. Each stands in the crate that it is handed on from.
#![tactic(auto)]

// Files: a voice read and written.
pub use refusal::Refusal;
pub use voice_read::{Lengths, parse_voice, voice_lengths};
pub use voice_write::{encode_voice, file_length};

// The sheet: judged, and walked record by record.
pub use sheet::{Record, judge_sheet, record_at};
pub use sheet_records::{
    SheetReader, advance as advance_reader, moved as move_reader, new as new_reader,
    next as peek_record, read_step,
};

// Samples: the parts of a voice's samples, the loudest of them, and where their sign changes.
pub use crossing::nearest_crossing;
pub use octaves::{
    Part, Side, loop_one_shot, loop_repeat, octave, octave_part, one_shot_part, repeat_part,
    side_part, side_samples,
};
pub use samples::{Loudest, peak};

// An octave as a RIFF WAVE file.
pub use wave::{octave_wave, octave_wave_length};

// A channel in difference order, as a vault stores it, and back.
pub use vault::{difference_order, difference_restore};

// A voice drawn from a number, the same on every machine.
pub use drawn::drawn_voice;

// Codecs: channels, and a whole BODY.
pub use body_decode::decode_body;
pub use body_read::{SideLengths, is_suited, side_lengths};
pub use fibonacci::{fibonacci_decode_channel, fibonacci_encode_channel};
pub use samples::{decode_raw, encode_raw};

// The header and the small chunks.
pub use header::{Compression, VoiceHeader, known_compression};
pub use header_volume::volume_f32;
pub use small_chunks::{ChannelAssignment, EgPoint, Fade, Pan, PanWeights, SeqnSegment};

// Envelopes.
pub use envelope::{level_at_ms, total_duration_ms};

// Notes, and lists of calls on them.
pub use note::{Filled, Note};
pub use note_calls::{KEY_UP, Made, REFUSED, make_calls};
pub use note_frame::{Key, Playing};
