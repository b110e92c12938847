// The milliseconds of a frame by a clock that is carried from frame to frame: it divides by the rate where it begins, and then only adds.
#![tactic(auto)]

ghost use Rattle.std.specs.Prelude.{◌<◌, ◌^◌};
ghost use Rattle.note_clock.specs.Clock.{Shows, Runs, Ticked};

// `ms` and `rem` are the quotient and the remainder, by the rate, of 1,000 times the frames that have passed; `whole` and `part` are
// those of 1,000, which each frame adds.
#[derive(Clone, Copy)]
pub struct Clock {
    pub rate: usize,
    pub whole: usize,
    pub part: usize,
    pub ms: usize,
    pub rem: usize,
}

// The clock after n frames.
pub fn clock_at(rate: usize, n: usize) -> Clock
    requires { (0 < rate) × (n < 2 ^ 32) }
    ensures { Shows rate n result }
{
    let passed = 1000 * n;
    Clock {
        rate,
        whole: 1000 / rate,
        part: 1000 % rate,
        ms: passed / rate,
        rem: passed % rate,
    }
}

// One frame more. A remainder and `part` are less than a rate each, so that beside `whole` rates at most one more fits.
pub fn tick(c: Clock) -> Clock
    requires { Runs c }
    ensures { Ticked c result }
{
    let ms = c.ms + c.whole;
    let gap = c.rate - c.part;
    if c.rem < gap {
        let rem = c.rem + c.part;
        return Clock { ms, rem, ..c };
    }
    let next = ms + 1;
    let rem = c.rem - gap;
    Clock { ms: next, rem, ..c }
}
