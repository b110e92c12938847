// SEQN's segments, and FADE, which names one of them.
ghost use Rattle.std.specs.Prelude.{◌≡◌, ◌+◌, ◌≤◌, leb, ltb, length, drop};
ghost use Rattle.small_chunks.specs.Sequence.{segment_of, segment_bytes, segment_length, segment_verdict, fade_of, fade_bytes, parsed_fade};

use refusal::Refusal;

// A range of samples of the highest octave.
#[derive(Clone, Copy)]
pub struct SeqnSegment {
    pub start: u32,
    pub end: u32,
}

// The eight bytes from `at` on.
pub fn read_segment(s: &[u8], at: usize) -> SeqnSegment
    requires { at + 8 ≤ length s.now }
    ensures { result ≡ segment_of (drop at s.now) }
{
    let second = at + 4;
    SeqnSegment {
        start: field::read32(s, at),
        end: field::read32(s, second),
    }
}

impl SeqnSegment {
    // Its eight bytes.
    pub fn write(self) -> [u8; 8]
        ensures { result ≡ segment_bytes self }
    {
        let mut out = [0; 8];
        let at = field::put32(&mut out, 0, self.start);
        field::put32(&mut out, at, self.end);
        out
    }

    // How many samples it has: none where its end is not past its start.
    pub fn len(self) -> u32
        ensures { result ≡ segment_length self }
    {
        if self.end <= self.start {
            return 0;
        }
        self.end - self.start
    }

    pub fn is_empty(self) -> bool
        ensures { result ≡ leb self.end self.start }
    {
        self.end <= self.start
    }

    // That it may be played: offsets in steps of 4, in order and within the highest octave, which is `hi` long; else 21.
    pub fn validate(self, hi: u64) -> Result<(), Refusal>
        ensures { result ≡ segment_verdict self hi }
    {
        if self.start % 4 != 0 {
            return Err(Refusal::Segment);
        }
        if self.end % 4 != 0 {
            return Err(Refusal::Segment);
        }
        if self.end < self.start {
            return Err(Refusal::Segment);
        }
        if hi < self.end as u64 {
            return Err(Refusal::Segment);
        }
        Ok(())
    }
}

// The segment at which the sound begins to fade, counted from 0.
#[derive(Clone, Copy)]
pub struct Fade {
    pub segment: u32,
}

// The four bytes from `at` on.
pub fn read_fade(s: &[u8], at: usize) -> Fade
    requires { at + 4 ≤ length s.now }
    ensures { result ≡ fade_of (drop at s.now) }
{
    Fade {
        segment: field::read32(s, at),
    }
}

impl Fade {
    // The segment of a FADE chunk.
    pub fn parse(body: &[u8]) -> Result<Fade, Refusal>
        ensures { result ≡ parsed_fade body.now }
    {
        if body.len() < 4 {
            return Err(Refusal::ChunkLength);
        }
        Ok(read_fade(body, 0))
    }

    // The four bytes of FADE.
    pub fn write(self) -> [u8; 4]
        ensures { result ≡ fade_bytes self }
    {
        field::bytes32(self.segment)
    }

    // That a sequence of so many segments has the one it names.
    pub fn is_valid_for(self, segments: usize) -> bool
        ensures { result ≡ ltb self.segment segments }
    {
        (self.segment as usize) < segments
    }
}
