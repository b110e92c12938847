// A part of a slice.
ghost use Rattle.std.specs.Prelude.{◌≡◌, length};
ghost use Rattle.octaves.specs.Part.{part_of, part_at};
ghost use Rattle.octaves.specs.ForCode.{LiesWithin};

#[derive(Clone, Copy, Debug, PartialEq, Eq)]
pub struct Part {
    pub start: usize,
    pub length: usize,
}

// The part itself; an empty one, at the slice's start, where there is none.
pub(crate) fn part_of<'a>(samples: &'a [i8], part: Option<Part>) -> &'a [i8]
    requires { LiesWithin part (length samples.now) }
    ensures contents { result.now ≡ part_of part samples.now }
    ensures place { result.ref_ptr ≡ part_at part samples.entry.ref_ptr }
{
    match part {
        None => &samples[..0],
        Some(Part { start, length: n }) => {
            let end = start + n;
            &samples[start..end]
        }
    }
}
