// The list on standard input: a byte says what a case is, and a slice has its length before it in four bytes, big-endian. Where the input
// ends or can't be read, the list ends.
ghost use Rattle.std.specs.Prelude.{◌≤◌, length};

use print::first;
use std::io::Read;
use voice::decode_raw;

// Reads until the buffer is full or the list ends; how many bytes it read.
fn fill<R: Read>(input: &mut R, buffer: &mut [u8]) -> usize
    ensures { result ≤ length buffer.new }
{
    let mut filled = 0;
    // by places: each read goes on where the one before it stopped
    while filled < buffer.len() {
        match input.read(&mut buffer[filled..]) {
            Ok(0) | Err(_) => break,
            Ok(n) => filled += n,
        }
    }
    filled
}

// The byte that says what the next case is; 0 at the end.
pub fn kind<R: Read>(input: &mut R) -> u8 {
    let mut byte = [0u8; 1];
    fill(input, &mut byte);
    byte[0]
}

fn length<R: Read>(input: &mut R) -> usize {
    let mut bytes = [0u8; 4];
    fill(input, &mut bytes);
    u32::from_be_bytes(bytes) as usize
}

// The next slice, at the front of a buffer, as much of it as the list has. One that doesn't fit is taken for empty.
pub fn slice<'a, R: Read>(input: &mut R, buffer: &'a mut [u8]) -> &'a [u8]
    ensures { length result.now ≤ length buffer.old }
{
    let n = length(input);
    match buffer.get_mut(..n) {
        None => &[],
        Some(slice) => {
            let got = fill(input, slice);
            first(slice, got)
        }
    }
}

// The next slice as samples, at the front of a buffer.
pub fn samples<'a, R: Read>(input: &mut R, buffer: &'a mut [i8]) -> &'a [i8]
    ensures { length result.now ≤ length buffer.old }
{
    let mut bytes = [0u8; 2048];
    match decode_raw(slice(input, &mut bytes), buffer) {
        Err(_) => &[],
        Ok(n) => first(buffer, n),
    }
}
