// Chunks written at a place of a lent buffer. What does not fit is passed over, so over an empty slice they measure.
ghost use Rattle.std.specs.Prelude.{◌+◌, ◌^◌, ◌<◌, length};
ghost use Rattle.laws.specs.Put.{Put};
ghost use Rattle.chunk.specs.ChunkBytes.{pad, head_bytes, chunk_bytes};

use field::{put_all, put_byte, put32};

// Name and size; the place past them. Of a size past 32 bits the low ones are stored: the FORM is then refused as too long.
pub fn put_head(id: u32, size: usize, d: &mut [u8], at: usize) -> usize
    requires { at < 2 ^ 62 }
    ensures { Put d.old at (head_bytes id size) d.new result }
{
    let named = put32(d, at, id);
    let low = (size % 4294967296) as u32;
    put32(d, named, low)
}

// The pad of a payload of n bytes; the place past it.
pub fn put_pad(n: usize, d: &mut [u8], at: usize) -> usize
    requires { at < 2 ^ 63 }
    ensures { Put d.old at (pad n) d.new result }
{
    if n % 2 == 0 {
        return at;
    }
    put_byte(d, at, 0)
}

// A whole chunk; the place past it.
pub fn put_chunk(id: u32, body: &[u8], d: &mut [u8], at: usize) -> usize
    requires { at + length body.now < 2 ^ 61 }
    ensures { Put d.old at (chunk_bytes id body.now) d.new result }
{
    let n = body.len();
    let o = put_head(id, n, d, at);
    let p = put_all(body, d, o);
    put_pad(n, d, p)
}
