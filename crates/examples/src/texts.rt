// Text chunks cleaned, as records of the sheet. The cleaning is no entry of the door, so the crate `text` is named here.
ghost use Rattle.std.specs.Prelude.{◌≤◌, length};

use print::{Bytes, first};
use std::io;
use text::{clean_len, put_text};

// The text of a chunk under the key 1; one that cleaning leaves empty is dropped.
fn clean(rt: &impl Print, payload: &[u8]) -> io::Result<()> {
    print!(rt; "text{}:", Bytes(payload))?;
    let n = clean_len(payload);
    if n == 0 {
        return println!(rt; " dropped");
    }
    print!(rt; " {n} bytes, records")?;
    if payload.len() <= 16 {
        let mut out = [0u8; 32];
        let end = put_records(payload, &mut out);
        print!(rt; "{}", Bytes(first(&out, end)))?;
    }
    println!(rt;)
}

// The records of a text, at the front of a buffer; where they end.
fn put_records(payload: &[u8], out: &mut [u8; 32]) -> usize
    requires { length payload.now ≤ 16 }
{
    out[0] = 10;
    out[1] = 1;
    put_text(payload, out, 2)
}

pub fn run(rt: &impl Print) -> io::Result<()> {
    clean(rt, b" A\x00B")?;
    clean(rt, b"\x85")?;
    clean(rt, b"\xC2\x85")?;
    clean(rt, b"\xE2\x80")?;
    clean(rt, b"\xED\xA0\x80")?;
    clean(rt, b"\xF0\x80\x80\x80")?;
    clean(rt, b"\xE3\x80\x80A\xE2\x80\x89")?;
    clean(rt, b"\xE1\xA0\x8E")?;
    clean(rt, b"\xE2\x80\x8B")?;
    clean(rt, b"\xEF\xBB\xBF")?;
    clean(rt, b"\x1C")
}
