// The loudest sample, at its first place.
ghost use Rattle.std.specs.Prelude.{◌≡◌, ◌≤◌, ◌==◌, nat_abs, length, position};
ghost use Rattle.samples.specs.Peak.{loudest, first_with, peak_of};

#[derive(Clone, Copy, Debug, PartialEq, Eq)]
pub struct Loudest {
    pub magnitude: u8,
    pub place: usize,
}

// How many samples are looked at together. In such a block only the magnitude is asked for, which a processor can do for many samples at
// once; the place is searched for in one block alone.
const BLOCK: usize = 128;

// The first of the loudest blocks: how loud it is, and where it begins.
#[derive(Clone, Copy)]
struct LoudestBlock {
    magnitude: u8,
    start: usize,
}

// The largest magnitude of samples; 0 where there are none.
fn largest_magnitude(samples: &[i8]) -> u8
    ensures { result ≡ loudest samples.now }
{
    let mut best = 0u8;
    for s in samples {
        best = best.max(s.unsigned_abs());
    }
    best
}

// The first of the loudest blocks: no sample before it is as loud.
fn loudest_block(samples: &[i8]) -> LoudestBlock
    ensures magnitude { result.magnitude ≡ loudest samples.now }
    ensures start { result.start ≤ first_with (loudest samples.now) samples.now }
    ensures inside { result.start ≤ length samples.now }
{
    let mut best = LoudestBlock {
        magnitude: 0,
        start: 0,
    };
    let mut start = 0;
    for block in samples.chunks(BLOCK) {
        let magnitude = largest_magnitude(block);
        if best.magnitude < magnitude {
            best = LoudestBlock { magnitude, start };
        }
        start += block.len();
    }
    best
}

// The first place whose sample has magnitude m.
fn first_with(samples: &[i8], m: u8) -> Option<usize>
    ensures { result ≡ position (λ s. nat_abs s == m) samples.now }
{
    samples.iter().position(|s| s.unsigned_abs() == m)
}

// The peak of samples: the largest magnitude and the first place that has it.
pub fn peak(samples: &[i8]) -> Option<Loudest>
    ensures { result ≡ peak_of samples.now }
{
    let LoudestBlock { magnitude, start } = loudest_block(samples);
    let past = first_with(&samples[start..], magnitude)?;
    let place = start + past;
    Some(Loudest { magnitude, place })
}
