// What the programs print.
#![tactic(auto)]

mod passing;

ghost use Rattle.std.specs.Prelude.{◌≡◌, take, IsOk};

pub use passing::Passing;
use std::{fmt, io};

// Bytes, each after a space, in two hex digits.
#[derive(Clone, Copy)]
pub struct Bytes<'a>(pub &'a [u8]);

// Samples, each after a space, in decimal.
#[derive(Clone, Copy)]
pub struct Samples<'a>(pub &'a [i8]);

// Bytes, or samples as bytes, close together, each in two hex digits.
#[derive(Clone, Copy)]
pub struct Packed<'a, T>(pub &'a [T]);

impl fmt::Display for Bytes<'_> {
    fn fmt<W: fmt::Write>(&self, f: &mut fmt::Formatter<W>) -> fmt::Result {
        self.0.iter().try_for_each(|byte| write!(f, " {byte:02x}"))
    }
}

impl fmt::Display for Samples<'_> {
    fn fmt<W: fmt::Write>(&self, f: &mut fmt::Formatter<W>) -> fmt::Result {
        self.0.iter().try_for_each(|sample| write!(f, " {sample}"))
    }
}

impl<T: fmt::Radix + Copy> fmt::Display for Packed<'_, T> {
    fn fmt<W: fmt::Write>(&self, f: &mut fmt::Formatter<W>) -> fmt::Result {
        self.0
            .iter()
            .copied()
            .try_for_each(|value| write!(f, "{value:02x}"))
    }
}

// The first n of a buffer that was filled.
pub fn first<T>(buffer: &[T], n: usize) -> &[T]
    ensures { result.now ≡ take n buffer.now }
{
    &buffer[..n.min(buffer.len())]
}

// The end of a line that says what a call gave: that it was refused, and by which number.
pub fn refused(rt: &impl Print, number: u8) -> io::Result<()>
    ensures { IsOk result }
{
    println!(Passing(rt); " refused {number}")
}
