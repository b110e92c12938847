// Octaves, totals, volumes, pans, frequencies, channels and segments.
use print::refused;
use std::io;
use voice::{ChannelAssignment, Fade, Pan, SeqnSegment, VoiceHeader, volume_f32};

fn header(one_shot: u32, repeat: u32, octaves: u8) -> VoiceHeader {
    VoiceHeader {
        one_shot_hi_samples: one_shot,
        repeat_hi_samples: repeat,
        samples_per_hi_cycle: 0,
        samples_per_sec: 8000,
        ct_octave: octaves,
        compression_byte: 0,
        volume: 65536,
    }
}

fn total(rt: &impl Print, one_shot: u32, octaves: u8) -> io::Result<()> {
    print!(rt; "one-shot {one_shot}, octaves {octaves}: total")?;
    match header(one_shot, 0, octaves).total_samples_per_channel() {
        Ok(n) => println!(rt; " {n}"),
        Err(refusal) => refused(rt, refusal.number()),
    }
}

fn octave(rt: &impl Print, one_shot: u32, repeat: u32, octaves: u8, k: u8) -> io::Result<()> {
    let hi = u64::from(one_shot) + u64::from(repeat);
    print!(rt; "hi {hi}, octaves {octaves}, octave {k}:")?;
    match header(one_shot, repeat, octaves).octave_samples(k) {
        Some(n) => println!(rt; " {n}"),
        None => println!(rt; " absent"),
    }
}

fn channel(rt: &impl Print, v: u32) -> io::Result<()> {
    print!(rt; "CHAN {v}:")?;
    match ChannelAssignment::from_raw(v) {
        Ok(channel) => println!(rt; " channels {}", channel.channel_count()),
        Err(refusal) => refused(rt, refusal.number()),
    }
}

fn segment(rt: &impl Print, start: u32, end: u32, hi: u64) -> io::Result<()> {
    print!(rt; "segment {start} to {end} of {hi}:")?;
    let segment = SeqnSegment { start, end };
    match segment.validate(hi) {
        Ok(()) => println!(rt; " {}", segment.len()),
        Err(refusal) => refused(rt, refusal.number()),
    }
}

// Whether what is said of a value holds.
fn holds(rt: &impl Print, said: &str, holds: bool) -> io::Result<()> {
    println!(rt; "{said}: {}", if holds { "yes" } else { "no" })
}

fn floats(rt: &impl Print) -> io::Result<()> {
    holds(
        rt,
        "volume FFFFFFFF is 65536.0",
        volume_f32(0xFFFF_FFFF) == 65536.0,
    )?;
    holds(
        rt,
        "volume 01000001 is 256.0",
        volume_f32(0x0100_0001) == 256.0,
    )?;
    holds(
        rt,
        "volume 01000003 is 256.00006103515625",
        volume_f32(0x0100_0003) == 256.00006103515625,
    )?;
    let quarter = Pan { position: 16384 }.weights();
    holds(rt, "pan 16,384 is left 0.25", quarter.left == 0.25)?;
    holds(rt, "pan 16,384 is right 0.75", quarter.right == 0.75)?;
    let past = Pan { position: -1 }.weights();
    holds(rt, "pan -1 is right 1.0", past.right == 1.0)?;
    let header = VoiceHeader {
        samples_per_hi_cycle: 32,
        ..header(1, 0, 1)
    };
    let told = header.hi_cycle_frequency_hz();
    holds(rt, "8,000 Hz, 32 a cycle, is 250.0 Hz", told == Some(250.0))
}

pub fn run(rt: &impl Print) -> io::Result<()> {
    total(rt, 1, 64)?;
    total(rt, 1, 65)?;
    total(rt, 0, 255)?;
    total(rt, 3, 0)?;
    octave(rt, 2, 3, 3, 2)?;
    octave(rt, 2, 3, 3, 3)?;
    octave(rt, 0, 0, 3, 2)?;
    octave(rt, 0x8000_0000, 0, 64, 33)?;
    channel(rt, 4)?;
    channel(rt, 6)?;
    channel(rt, 5)?;
    segment(rt, 4, 12, 12)?;
    segment(rt, 4, 4, 12)?;
    segment(rt, 4, 10, 12)?;
    segment(rt, 8, 4, 12)?;
    segment(rt, 4, 16, 12)?;
    holds(
        rt,
        "FADE 1 of 1 segment",
        Fade { segment: 1 }.is_valid_for(1),
    )?;
    floats(rt)
}
