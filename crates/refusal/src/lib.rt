// Refusals: why an entry turns a call back.
#![tactic(auto)]

ghost use Rattle.std.specs.Prelude.{◌≡◌, ◌<◌};
ghost use Rattle.refusal.specs.Refusal.{number_of};

use std::error::Error;
use std::fmt;

// Why a call was turned back. Each has its number.
#[derive(Clone, Copy, Debug, PartialEq, Eq, Hash)]
pub enum Refusal {
    // refusals.txt { written by tools/refusals.sh
    // The file is shorter than 12 bytes.
    FileShort = 1,
    // The file doesn't begin with FORM.
    NotForm = 2,
    // The FORM's type isn't 8SVX.
    Not8svx = 3,
    // A chunk runs past the FORM.
    ChunkPastForm = 4,
    // A second VHDR, CHAN, PAN, SEQN, FADE or BODY.
    ChunkTwice = 5,
    // A chunk's length is wrong.
    ChunkLength = 6,
    // CHAN isn't 2, 4 or 6.
    ChannelValue = 7,
    // There is no VHDR.
    NoHeader = 8,
    // There is no BODY.
    NoBody = 9,
    // The compression is neither 0 nor 1.
    UnknownCompression = 10,
    // A Fibonacci BODY of two channels has an odd length.
    OddHalves = 11,
    // A Fibonacci channel is shorter than 2 bytes.
    ChannelShort = 12,
    // The octaves have more samples than 64 bits can count.
    OctaveTotal = 13,
    // A channel is shorter than its octaves.
    SamplesShort = 14,
    // The sheet ends inside a record.
    RecordCut = 15,
    // A record's kind, order or value is wrong, or the sheet has no header.
    RecordWrong = 16,
    // A text isn't UTF-8.
    TextIllFormed = 17,
    // The sample lengths don't suit the header and CHAN.
    SampleLengths = 18,
    // The length of the FORM or RIFF would be above 4,294,967,295.
    FormLength = 19,
    // An output buffer is too short.
    BufferShort = 20,
    // A SEQN segment isn't on multiples of 4, runs backwards or ends past the highest octave.
    Segment = 21,
    // There is a SEQN beside a one-shot part.
    SequenceOneShot = 22,
    // FADE names a segment that isn't there.
    FadeSegment = 23,
    // The sequence is longer than 4,294,967,295 samples.
    SequenceLength = 24,
    // The buffer to fill has an odd number of places.
    OddPlaces = 25,
    // The voice has no such octave.
    NoOctave = 31,
    // The step is 0 or above 16,777,216.
    Step = 32,
    // The output rate is 0 or above 192,000.
    Rate = 33,
    // The key-up frame is later than the frames filled.
    KeyUp = 34,
    // The voice's rate is 0.
    VoiceRate = 41,
    // There is no crossing within reach.
    NoCrossing = 43,
    // The velocity is 0 or above 127.
    Velocity = 44,
    // An entry of the score starts before the entry before it.
    StartOrder = 45,
    // The score has more than 16 entries.
    EntryCount = 46,
    // An entry's key-up frame is before its start frame.
    EarlyKeyUp = 47,
    // The starting number is 0.
    ZeroNumber = 48,
    // } refusals.txt
}

impl Refusal {
    // Its number, by which C hosts and programs know it. None is 0, which stands for an accepted call.
    pub fn number(self) -> u8
        ensures number { result ≡ number_of self }
        ensures refused { 0 < result }
    {
        self as u8
    }
}

// In a few words, as `svx_refusal_text` has them.
impl fmt::Display for Refusal {
    fn fmt<W: fmt::Write>(&self, f: &mut fmt::Formatter<W>) -> fmt::Result {
        f.write_str(match self {
            // refusals.txt { written by tools/refusals.sh
            Refusal::FileShort => "the file is shorter than 12 bytes",
            Refusal::NotForm => "the file doesn't begin with FORM",
            Refusal::Not8svx => "the FORM's type isn't 8SVX",
            Refusal::ChunkPastForm => "a chunk runs past the FORM",
            Refusal::ChunkTwice => "a second VHDR, CHAN, PAN, SEQN, FADE or BODY",
            Refusal::ChunkLength => "a chunk's length is wrong",
            Refusal::ChannelValue => "CHAN isn't 2, 4 or 6",
            Refusal::NoHeader => "there is no VHDR",
            Refusal::NoBody => "there is no BODY",
            Refusal::UnknownCompression => "the compression is neither 0 nor 1",
            Refusal::OddHalves => "a Fibonacci BODY of two channels has an odd length",
            Refusal::ChannelShort => "a Fibonacci channel is shorter than 2 bytes",
            Refusal::OctaveTotal => "the octaves have more samples than 64 bits can count",
            Refusal::SamplesShort => "a channel is shorter than its octaves",
            Refusal::RecordCut => "the sheet ends inside a record",
            Refusal::RecordWrong =>
                "a record's kind, order or value is wrong, or the sheet has no header",
            Refusal::TextIllFormed => "a text isn't UTF-8",
            Refusal::SampleLengths => "the sample lengths don't suit the header and CHAN",
            Refusal::FormLength => "the length of the FORM or RIFF would be above 4,294,967,295",
            Refusal::BufferShort => "an output buffer is too short",
            Refusal::Segment =>
                "a SEQN segment isn't on multiples of 4, runs backwards or ends past the highest octave",
            Refusal::SequenceOneShot => "there is a SEQN beside a one-shot part",
            Refusal::FadeSegment => "FADE names a segment that isn't there",
            Refusal::SequenceLength => "the sequence is longer than 4,294,967,295 samples",
            Refusal::OddPlaces => "the buffer to fill has an odd number of places",
            Refusal::NoOctave => "the voice has no such octave",
            Refusal::Step => "the step is 0 or above 16,777,216",
            Refusal::Rate => "the output rate is 0 or above 192,000",
            Refusal::KeyUp => "the key-up frame is later than the frames filled",
            Refusal::VoiceRate => "the voice's rate is 0",
            Refusal::NoCrossing => "there is no crossing within reach",
            Refusal::Velocity => "the velocity is 0 or above 127",
            Refusal::StartOrder => "an entry of the score starts before the entry before it",
            Refusal::EntryCount => "the score has more than 16 entries",
            Refusal::EarlyKeyUp => "an entry's key-up frame is before its start frame",
            Refusal::ZeroNumber => "the starting number is 0",
            // } refusals.txt
        })
    }
}

impl Error for Refusal {}
