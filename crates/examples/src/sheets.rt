// Sheets judged, and their records.
use print::{Bytes, refused};
use std::io;
use voice::{Record, judge_sheet, record_at};

fn judge(rt: &impl Print, all: &[u8]) -> io::Result<()> {
    match judge_sheet(all) {
        Ok(()) => println!(rt; " sound"),
        Err(refusal) => refused(rt, refusal.number()),
    }
}

fn alone(rt: &impl Print, all: &[u8]) -> io::Result<()> {
    print!(rt; "sheet{}:", Bytes(all))?;
    judge(rt, all)
}

// A header of compression 7, the rest 0, and what follows it.
fn after_header(rt: &impl Print, rest: &[u8]) -> io::Result<()> {
    print!(rt; "sheet of a header and{}:", Bytes(rest))?;
    let mut all = [0u8; 64];
    all[0] = 1;
    all[16] = 7;
    if rest.len() <= 43 {
        let n = 21 + rest.len();
        all[21..n].copy_from_slice(rest);
        judge(rt, &all[..n])?;
    }
    Ok(())
}

fn at(rt: &impl Print, all: &[u8], place: usize) -> io::Result<()> {
    print!(rt; "record at {place} of{}:", Bytes(all))?;
    match record_at(all, place) {
        Ok(Some(Record { kind, start, next })) => {
            println!(rt; " kind {kind}, body from {start} to {next}")
        }
        Ok(None) => println!(rt; " end"),
        Err(refusal) => refused(rt, refusal.number()),
    }
}

fn order(rt: &impl Print) -> io::Result<()> {
    after_header(rt, &[1])?;
    after_header(rt, &[2, 5])?;
    after_header(rt, &[3, 0, 0, 0, 0, 2, 2])?;
    after_header(rt, &[4, 5, 7])?;
    after_header(rt, &[5, 4])?;
    after_header(rt, &[6, 0, 0, 0, 0, 0, 0])?;
    after_header(rt, &[7, 7])
}

fn texts(rt: &impl Print) -> io::Result<()> {
    after_header(rt, &[10, 1, 11, 0])?;
    after_header(rt, &[10, 6])?;
    after_header(rt, &[10, 1, 11, 0xFF, 0])?;
    after_header(rt, &[10, 1, 11, 0xC3, 10, 1, 11, 0xA9])?;
    after_header(rt, &[10, 1, 11, 0xC3, 11, 0xA9])
}

pub fn run(rt: &impl Print) -> io::Result<()> {
    alone(rt, &[])?;
    alone(rt, &[2])?;
    alone(rt, &[2, 2])?;
    alone(rt, &[12])?;
    alone(rt, &[4])?;
    order(rt)?;
    texts(rt)?;
    at(rt, &[4, 6, 0, 10, 0, 1, 0, 0], 0)?;
    at(rt, &[4, 6, 0, 10, 0, 1, 0, 0], 1)?;
    at(rt, &[4, 6, 0, 10, 0, 1, 0, 0], 9)?;
    at(rt, &[4, 6, 0, 10], 1)
}
