// A path in numbers, and the run in hand.
ghost use Rattle.std.specs.Prelude.{◌≡◌, true, false, ◌+◌, ◌-◌, ◌*◌, ◌≤◌, ◌<◌, ◌^◌};
ghost use Rattle.header.specs.Octaves.{hi};
ghost use Rattle.sheet_layout.specs.Members.{segments_in, Whole};
ghost use Rattle.note_path.specs.Run.{InOctave, Sane, Good, Reached, PathIs};

use crate::segments::Segments;
use header::VoiceHeader;

// The octave's samples begin at `first`; `one_shot` and `repeat` are the lengths of its parts, and a segment's offsets are times
// `scale`. Each side has so many samples.
#[derive(Clone, Copy)]
pub struct Path {
    pub first: usize,
    pub scale: usize,
    pub one_shot: usize,
    pub repeat: usize,
    pub samples: usize,
    pub sequence: bool,
}

// Steps `from` up to `until` lie side by side from the place `start` on. The segment after them lies at `at` or past it.
#[derive(Clone, Copy)]
pub struct Run {
    pub at: usize,
    pub from: usize,
    pub until: usize,
    pub start: usize,
}

// How many times as long octave k is as octave 0.
pub fn power_of_two(k: u8) -> usize
    requires { k < 64 }
    ensures { result ≡ 2 ^ k }
{
    1 << k
}

// The path of octave k. If hi = 0 the samples are a one-shot part.
pub fn path_of(h: VoiceHeader, k: u8, sequence: bool, segments: &[u8], samples: usize) -> Path
    requires { InOctave h k samples (segments_in segments.now) × Whole 8 8 segments.now }
    ensures { PathIs h k sequence samples segments.now result }
{
    let scale = power_of_two(k);
    let hi = h.hi_octave_samples() as usize;
    if hi == 0 {
        return Path {
            first: 0,
            scale,
            one_shot: samples,
            repeat: 0,
            samples,
            sequence,
        };
    }
    let first = hi * (scale - 1);
    let one_shot = h.one_shot_hi_samples as usize * scale;
    let repeat = h.repeat_hi_samples as usize * scale;
    Path {
        first,
        scale,
        one_shot,
        repeat,
        samples,
        sequence,
    }
}

// The run before the first step.
pub fn run_start(p: Path, segments: &[u8]) -> Run
    requires { Sane p segments.now }
    ensures { Good p segments.now result × (result.from ≤ 0) }
{
    Run {
        at: 0,
        from: 0,
        until: 0,
        start: p.first,
    }
}

// The turn of the loop that has step q: one division for a turn.
fn loop_run(p: Path, segments: &[u8], q: usize) -> Run
    requires { Sane p segments.now × (p.sequence ≡ false) × (q < 2 ^ 62) }
    ensures { Reached p segments.now q result }
{
    let octave = p.one_shot + p.repeat;
    if q < octave {
        return Run {
            at: 0,
            from: 0,
            until: octave,
            start: p.first,
        };
    }
    if p.repeat == 0 {
        return Run {
            at: 0,
            from: q,
            until: q,
            start: p.first,
        };
    }
    let from = q - (q - p.one_shot) % p.repeat;
    let until = from + p.repeat;
    let start = p.first + p.one_shot;
    Run {
        at: 0,
        from,
        until,
        start,
    }
}

// The segment that has step q, from the one after the run in hand on.
fn next_run(p: Path, segments: &[u8], r: Run, q: usize) -> Run
    requires { Sane p segments.now × Good p segments.now r × (r.until ≤ q) × (p.sequence ≡ true) × (q < 2 ^ 62) }
    ensures { Reached p segments.now q result }
{
    let mut until = r.until;
    let mut ahead = Segments {
        part: segments,
        at: r.at,
    };
    while let Some(s) = ahead.next() {
        let begin = s.start as usize * p.scale;
        let end = s.end as usize * p.scale;
        let past = until + (end - begin);
        if q < past {
            let start = p.first + begin;
            return Run {
                at: ahead.at,
                from: until,
                until: past,
                start,
            };
        }
        until = past;
    }
    Run {
        at: ahead.at,
        from: until,
        until,
        start: p.first,
    }
}

// The run that has step q, no earlier than the run in hand begins.
pub fn run_to(p: Path, segments: &[u8], r: Run, q: usize) -> Run
    requires { Sane p segments.now × Good p segments.now r × (r.from ≤ q) × (q < 2 ^ 62) }
    ensures { Reached p segments.now q result }
{
    if q < r.until {
        return r;
    }
    if p.sequence {
        return next_run(p, segments, r, q);
    }
    loop_run(p, segments, q)
}
