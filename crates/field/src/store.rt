// Stores at a place of a lent buffer.
ghost use Rattle.std.specs.Prelude.{suc, ◌+◌, ◌^◌, ◌<◌, [], ◌∷◌, length};
ghost use Rattle.laws.specs.Put.{Put};
ghost use Rattle.field.specs.Tagged.{tagged};

// One byte; the place past it.
pub fn put_byte(d: &mut [u8], at: usize, b: u8) -> usize
    requires { at < 2 ^ 63 }
    ensures { Put d.old at (b ∷ []) d.new result }
{
    if at < d.len() {
        d[at] = b;
    }
    at + 1
}

// All of `src`; the place past it. Byte by byte, as the compiler copies this in blocks: a `copy_from_slice` of the part that fits
// took twice the time at 4,096 bytes, and four times at 5.
pub fn put_all(src: &[u8], d: &mut [u8], at: usize) -> usize
    requires { at + length src.now < 2 ^ 63 }
    ensures { Put d.old at src.now d.new result }
{
    let mut o = at;
    for b in src {
        o = put_byte(d, o, *b);
    }
    o
}

// A tag, then all of `src`: a record of a kind; the place past it.
pub fn put_record(src: &[u8], tag: u8, d: &mut [u8], at: usize) -> usize
    requires { at + suc (length src.now) < 2 ^ 63 }
    ensures { Put d.old at (tag ∷ src.now) d.new result }
{
    let o = put_byte(d, at, tag);
    put_all(src, d, o)
}

// `src` as records: parts of n bytes with a tag before each; the place past them.
pub fn put_tagged(src: &[u8], tag: u8, n: usize, d: &mut [u8], at: usize) -> usize
    requires { (0 < n) × (at + length (tagged tag n src.now) < 2 ^ 63) }
    ensures { Put d.old at (tagged tag n src.now) d.new result }
{
    let mut o = at;
    for part in src.chunks_exact(n) {
        o = put_record(part, tag, d, o);
    }
    o
}
