// Puts channels in difference order and restores them, and prints what comes out.
#![tactic(auto)]

use print::{Passing, Samples, first, refused};
use refusal::Refusal;
use std::io;
use voice::{VoiceHeader, difference_order, difference_restore};

// A header with this length of the highest of so many octaves.
fn header(hi: u32, octaves: u8) -> VoiceHeader {
    VoiceHeader {
        one_shot_hi_samples: hi,
        repeat_hi_samples: 0,
        samples_per_hi_cycle: 0,
        samples_per_sec: 0,
        ct_octave: octaves,
        compression_byte: 0,
        volume: 0,
    }
}

fn tell(rt: &impl Print, answer: Result<usize, Refusal>, out: &[i8]) -> io::Result<()> {
    match answer {
        Ok(n) => println!(rt; "{}", Samples(first(out, n))),
        Err(refusal) => refused(rt, refusal.number()),
    }
}

fn order(rt: &impl Print, hi: u32, octaves: u8, channel: &[i8]) -> io::Result<()> {
    print!(rt;
        "difference order of{}, {octaves} octaves from {hi} on:",
        Samples(channel)
    )?;
    let mut out = [0i8; 7];
    let answer = difference_order(header(hi, octaves), channel, &mut out);
    tell(rt, answer, &out)
}

fn restore(rt: &impl Print, hi: u32, octaves: u8, values: &[i8]) -> io::Result<()> {
    print!(rt;
        "restored from{}, {octaves} octaves from {hi} on:",
        Samples(values)
    )?;
    let mut out = [0i8; 7];
    let answer = difference_restore(header(hi, octaves), values, &mut out);
    tell(rt, answer, &out)
}

fn main(rt: HostRuntime) -> io::Result<()> {
    let out = Passing(&rt);
    order(&out, 0, 3, &[1, 4, 9, 16, 25])?;
    restore(&out, 0, 3, &[1, 5, 9, 3, 7])?;
    order(&out, 0, 255, &[127, -128, 127, 0])?;
    restore(&out, 0, 255, &[127, -1, 1, -127])?;
    order(&out, 1, 3, &[9, 10, 20, -100, 100, 0, 127])?;
    restore(&out, 1, 3, &[9, 10, 10, -100, -100, -56, 127])?;
    order(&out, 0, 0, &[])?;
    restore(&out, 0, 0, &[-128])?;
    order(&out, 1, 65, &[])?;
    order(&out, 1, 3, &[9, 10, 20])?;
    order(&out, 0, 1, &[1, 2, 3, 4, 5, 6, 7, 8])
}
