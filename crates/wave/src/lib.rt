// An octave of a voice as a RIFF WAVE file of 8-bit PCM, for samplers that know nothing else.
#![tactic(auto)]

mod front;
mod measure;
mod values;
mod write;

pub use measure::octave_wave_length;
pub use write::octave_wave;
