// A file read.
use crate::input;
use print::{Packed, first};
use std::io;
use std::io::Read;
use voice::parse_voice;

fn parse(rt: &impl Print, file: &[u8]) -> io::Result<()> {
    let mut sheet = [0u8; 4096];
    let mut left = [0i8; 2048];
    let mut right = [0i8; 2048];
    match parse_voice(file, &mut sheet, &mut left, &mut right) {
        Err(refusal) => println!(rt; "{}", refusal.number()),
        Ok(l) => println!(rt;
            "voice {}. {}. {}.",
            Packed(first(&sheet, l.sheet)),
            Packed(first(&left, l.left)),
            Packed(first(&right, l.right))
        ),
    }
}

pub fn run<R: Read>(rt: &impl Print, input: &mut R) -> io::Result<()> {
    let mut file = [0u8; 1024];
    parse(rt, input::slice(input, &mut file))
}
