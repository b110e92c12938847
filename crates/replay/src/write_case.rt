// A file written.
use crate::input;
use print::{Packed, first};
use std::io;
use std::io::Read;
use voice::encode_voice;

fn encode(rt: &impl Print, sheet: &[u8], left: &[i8], right: &[i8]) -> io::Result<()> {
    let mut file = [0u8; 4096];
    match encode_voice(sheet, left, right, &mut file) {
        Err(refusal) => println!(rt; "{}", refusal.number()),
        Ok(n) => println!(rt; "file {}.", Packed(first(&file, n))),
    }
}

pub fn run<R: Read>(rt: &impl Print, input: &mut R) -> io::Result<()> {
    let mut sheet = [0u8; 1024];
    let mut left = [0i8; 1024];
    let mut right = [0i8; 1024];
    let sheet = input::slice(input, &mut sheet);
    let left = input::samples(input, &mut left);
    let right = input::samples(input, &mut right);
    encode(rt, sheet, left, right)
}
