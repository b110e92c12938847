// Fibonacci channels both ways, BODY by halves, and the loudest sample.
use print::{Bytes, Samples, first, refused};
use std::io;
use voice::{decode_body, fibonacci_decode_channel, fibonacci_encode_channel, peak};

fn read(rt: &impl Print, body: &[u8]) -> io::Result<()> {
    print!(rt; "reading{} gives", Bytes(body))?;
    let mut out = [0i8; 8];
    match fibonacci_decode_channel(body, &mut out) {
        Ok(n) => println!(rt; "{}", Samples(first(&out, n))),
        Err(refusal) => refused(rt, refusal.number()),
    }
}

fn write(rt: &impl Print, channel: &[i8]) -> io::Result<()> {
    print!(rt; "writing{} gives", Samples(channel))?;
    let mut out = [0u8; 8];
    match fibonacci_encode_channel(channel, &mut out) {
        Ok(n) => println!(rt; "{}", Bytes(first(&out, n))),
        Err(refusal) => refused(rt, refusal.number()),
    }
}

fn body(
    rt: &impl Print,
    compression: u8,
    channels: u16,
    frames: usize,
    all: &[u8],
) -> io::Result<()> {
    print!(rt;
        "BODY{}, compression {compression}, channels {channels}, at most {frames} frames:",
        Bytes(all)
    )?;
    let mut out = [0u8; 8];
    match decode_body(all, compression, channels, frames, &mut out) {
        Ok(n) => println!(rt; "{}", Bytes(first(&out, n))),
        Err(refusal) => refused(rt, refusal.number()),
    }
}

fn loudest(rt: &impl Print, channel: &[i8]) -> io::Result<()> {
    print!(rt; "loudest of{}:", Samples(channel))?;
    match peak(channel) {
        None => println!(rt; " none"),
        Some(loudest) => println!(rt; " {} at {}", loudest.magnitude, loudest.place),
    }
}

fn channels(rt: &impl Print) -> io::Result<()> {
    read(rt, &[0x00, 0x64, 0xF1])?;
    read(rt, &[0x00, 0x7F, 0xF8])?;
    read(rt, &[0x00, 0x80, 0x00])?;
    read(rt, &[0x00])?;
    write(rt, &[0, 1])?;
    write(rt, &[0, 4])?;
    write(rt, &[0, -4])?;
    write(rt, &[0, 100, 100])?;
    write(rt, &[-128, -128])?;
    write(rt, &[127, 127])?;
    write(rt, &[127, -128])?;
    write(rt, &[-128, 127])?;
    write(rt, &[])
}

pub fn run(rt: &impl Print) -> io::Result<()> {
    channels(rt)?;
    body(rt, 0, 2, 1, &[1, 2, 3, 4, 5, 6, 7])?;
    body(rt, 0, 0, 9, &[1, 0xFE])?;
    body(rt, 1, 3, 9, &[0, 0x64, 0xF1, 0, 0x80, 0x00])?;
    body(rt, 1, 2, 9, &[0, 0, 0])?;
    body(rt, 1, 2, 9, &[0, 0])?;
    body(rt, 2, 1, 9, &[0, 0])?;
    body(rt, 0, 1, 9, &[0, 0, 0, 0, 0, 0, 0, 0, 0])?;
    loudest(rt, &[3, -128, 127, -128])?;
    loudest(rt, &[])
}
