// A chunk made of the members of a group: its points, its segments, or the bytes of a text.
ghost use Rattle.std.specs.Prelude.{◌≡◌, ◌++◌, ◌+◌, ◌^◌, ◌≤◌, ◌<◌, length, drop, replicate};
ghost use Rattle.laws.specs.Put.{Put};
ghost use Rattle.chunk.specs.ChunkBytes.{chunk_bytes};
ghost use Rattle.sheet.specs.Record.{records, body_length};
ghost use Rattle.sheet.specs.Read.{leading};
ghost use Rattle.sheet_write.specs.RecordChunks.{members_after};

use chunk::put_head;
use field::put_all;
use sheet::record_at;

// How many records of a kind stand from a place on.
fn member_count(sheet: &[u8], from: usize, member: u8) -> usize
    ensures { result ≡ length (leading member (records (drop from sheet.now))) }
{
    let mut p = from;
    let mut m = 0;
    while let Some(record) = record_at(sheet, p).unwrap_or(None) {
        if record.kind != member {
            return m;
        }
        m += 1;
        p = record.next;
    }
    m
}

// The bodies of the records of a kind that stand from a place on.
fn put_members(sheet: &[u8], from: usize, member: u8, d: &mut [u8], at: usize) -> usize
    requires { at + length (members_after member (records (drop from sheet.now))) < 2 ^ 62 }
    ensures { Put d.old at (members_after member (records (drop from sheet.now))) d.new result }
{
    let mut p = from;
    let mut o = at;
    while let Some(record) = record_at(sheet, p).unwrap_or(None) {
        if record.kind != member {
            return o;
        }
        o = put_all(&sheet[record.start..record.next], d, o);
        p = record.next;
    }
    o
}

// So many zero bytes, two at most.
fn put_zeros(n: usize, d: &mut [u8], at: usize) -> usize
    requires { (n ≤ 2) × (at < 2 ^ 62) }
    ensures { Put d.old at (replicate n 0) d.new result }
{
    put_all(&[0; 2][..n], d, at)
}

// The chunk of a name whose payload is the members of n bytes that stand from a place on, and so many zero bytes, one at most.
pub(crate) fn put_group(
    sheet: &[u8],
    from: usize,
    id: u32,
    member: u8,
    n: usize,
    zeros: usize,
    d: &mut [u8],
    at: usize,
) -> usize
    requires { (n ≡ body_length member) × (n ≤ 8) × (zeros ≤ 1) × (length sheet.now < 2 ^ 34) × (at < 2 ^ 60) }
    ensures { Put d.old at (chunk_bytes id (members_after member (records (drop from sheet.now)) ++ replicate zeros 0)) d.new result }
{
    let m = member_count(sheet, from, member);
    let size = m * n + zeros;
    let o = put_head(id, size, d, at);
    let p = put_members(sheet, from, member, d, o);
    let after = zeros + size % 2;
    put_zeros(after, d, p)
}
