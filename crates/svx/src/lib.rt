// The C interface. Each function hands its arguments to one entry of the library and its answer back: 0, or the refusal's number,
// with lengths written where the call was accepted and left alone where it was refused.
#![tactic(auto)]

mod codec;
mod differences;
mod drawing;
mod files;
mod hand;
mod leaves;
mod mixer;
mod notes;
mod parts;
mod sheet_walk;

pub use codec::{svx_decode_body, svx_fibonacci_decode_channel, svx_fibonacci_encode_channel};
pub use differences::{svx_difference_order, svx_difference_restore};
pub use drawing::svx_drawn_voice;
pub use files::{
    svx_encode_voice, svx_file_length, svx_octave_wave, svx_octave_wave_length, svx_parse_voice,
    svx_voice_lengths,
};
pub use leaves::{
    SvxFrequency, SvxPan, SvxPeak, svx_hi_cycle_frequency_hz, svx_level_at_ms,
    svx_nearest_crossing, svx_pan_weights, svx_peak, svx_volume_f32,
};
pub use mixer::svx_mix;
pub use notes::{SvxFilled, SvxNote, svx_note_fill, svx_note_key_up, svx_note_start};
pub use parts::{SvxPart, svx_loop_repeat, svx_octave_samples, svx_side_samples};
pub use sheet_walk::{SvxRecord, svx_sheet_judge, svx_sheet_record};
