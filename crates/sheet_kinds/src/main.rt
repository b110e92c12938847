// Walks three sheets record by record and prints each record's kind and its body's length, then how the walk ends.
#![tactic(auto)]

use print::Passing;
use std::io;
use voice::{Record, read_step};

fn kinds(rt: &impl Print, sheet: &[u8]) -> io::Result<()> {
    let mut at = 0;
    // by places: read_step answers one record by its place, and each of the three ways that it answers prints something else
    loop {
        match read_step(sheet, at) {
            Ok(Some(Record { kind, start, next })) => {
                println!(rt; "kind {kind}, body {}", next - start)?;
                at = next;
            }
            Ok(None) => return println!(rt; "end"),
            Err(refusal) => return println!(rt; "refused {}", refusal.number()),
        }
    }
}

// A header, a channel, an attack of two points, a sequence of one segment, a fade and a text of two bytes.
fn whole(rt: &impl Print) -> io::Result<()> {
    println!(rt; "a whole sheet")?;
    kinds(
        rt,
        b"\x01\0\0\0\x04\0\0\0\x08\0\0\0\x04\x1F\x40\x01\0\0\x01\0\0\x02\x06\x04\x06\0\x0A\0\x01\0\0\x06\0\x14\0\0\x80\0\x07\x08\0\0\0\0\0\0\0\x04\x09\0\0\0\0\x0A\x01\x0BH\x0Bi",
    )
}

fn main(rt: HostRuntime) -> io::Result<()> {
    let out = Passing(&rt);
    whole(&out)?;
    println!(out; "an unknown kind after a channel")?;
    kinds(&out, b"\x02\x04\x0C\0")?;
    println!(out; "an attack, and a point cut off")?;
    kinds(&out, b"\x04\x06\0\x0A\0\x01")
}
