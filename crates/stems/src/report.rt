// A stem or a mix in print.
ghost use Rattle.std.specs.Prelude.{◌≡◌, ◌+◌, ◌*◌, ◌≤◌, length};

use std::{fmt, io};

// Every second value, from the first on, each after a space.
#[derive(Clone, Copy)]
struct Side<'a>(&'a [i16]);

impl fmt::Display for Side<'_> {
    fn fmt<W: fmt::Write>(&self, f: &mut fmt::Formatter<W>) -> fmt::Result {
        self.0
            .iter()
            .step_by(2)
            .try_for_each(|value| write!(f, " {value}"))
    }
}

// Eight frames of a stem from one on, the left values in a line and the right ones in the next.
pub fn frames(rt: &impl Print, stem: &[i16], first: usize) -> io::Result<()>
    requires { 2 * first + 16 ≤ length stem.now }
{
    let eight = &stem[2 * first..2 * first + 16];
    println!(rt; "frames {first} to {}", first + 7)?;
    println!(rt; "  left {}", Side(eight))?;
    println!(rt; "  right{}", Side(&eight[1..]))
}

// How many frames a stem has, and how many of them aren't over.
pub fn stem(rt: &impl Print, block: usize, values: &[i16], sounding: u64) -> io::Result<()> {
    print!(rt;
        "blocks of {block}: {} frames, {sounding} not over",
        values.len() / 2
    )
}

// The place that a mix has come to.
pub fn mixed(rt: &impl Print, block: usize, place: u32) -> io::Result<()> {
    print!(rt; "mixed in blocks of {block} up to {place}")
}

// How many values of a later stem, or of a later mix, differ from the first one's.
pub fn difference(rt: &impl Print, first: &[i16], again: &[i16]) -> io::Result<()>
    requires { length first.now ≡ length again.now }
{
    let n = first.iter().zip(again).filter(|(a, b)| a != b).count();
    println!(rt; ", {n} values differ from the first stem")
}
