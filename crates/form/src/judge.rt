// The first bad chunk of a FORM.
ghost use Rattle.std.specs.Prelude.{◌≡◌, ◌≤◌, ◌<◌, length};
ghost use Rattle.chunk.specs.Chunk.{items_from};
ghost use Rattle.form.specs.Kind.{kind_of, length_wrong};
ghost use Rattle.form.specs.FirstBad.{channel_wrong, chunk_wrong, first_bad};

use crate::names::{ATAK, BODY, CHAN, FADE, PAN, RLSE, SEQN, VHDR};
use chunk::chunk_at;
use field::read32;
use refusal::Refusal;
use small_chunks::is_channel;

// A chunk's kind: its place in the list of the names that have rules, from 1; 0 for another name.
fn kind_of(id: u32) -> usize
    ensures { (result ≡ kind_of id) × (result < 9) }
{
    match id {
        VHDR => 1,
        CHAN => 2,
        PAN => 3,
        SEQN => 4,
        FADE => 5,
        BODY => 6,
        ATAK => 7,
        RLSE => 8,
        _ => 0,
    }
}

// By kind: the least length, what the length is a multiple of, and whether a second one is bad.
const LEAST: [usize; 9] = [0, 20, 4, 4, 0, 4, 0, 0, 0];

const UNIT: [usize; 9] = [1, 1, 1, 1, 8, 1, 1, 6, 6];

const SINGLE: [bool; 9] = [false, true, true, true, true, true, true, false, false];

fn is_length_wrong(kind: usize, size: usize) -> bool
    requires { kind < 9 }
    ensures { result ≡ length_wrong kind size }
{
    if size < LEAST[kind] {
        return true;
    }
    size % UNIT[kind] != 0
}

// A CHAN whose value stands for no assignment: all four bytes count.
fn is_channel_wrong(body: &[u8], kind: usize) -> bool
    requires { kind ≡ 2 → 4 ≤ length body.now }
    ensures { result ≡ channel_wrong kind body.now }
{
    if kind != 2 {
        return false;
    }
    !is_channel(read32(body, 0))
}

// The refusal of one chunk, the lowest that applies; `came` says that one of its kind came before it.
fn chunk_wrong(body: &[u8], came: bool, kind: usize) -> Result<(), Refusal>
    requires { kind < 9 }
    ensures { result ≡ chunk_wrong came kind body.now }
{
    if came {
        return Err(Refusal::ChunkTwice);
    }
    if is_length_wrong(kind, body.len()) {
        return Err(Refusal::ChunkLength);
    }
    if is_channel_wrong(body, kind) {
        return Err(Refusal::ChannelValue);
    }
    Ok(())
}

// The refusal of the first bad chunk, where there is one.
pub fn first_bad(form: &[u8]) -> Result<(), Refusal>
    ensures { result ≡ first_bad (items_from form.now 12) }
{
    let mut came = [false; 9];
    let mut at = 12;
    while let Some(chunk) = chunk_at(form, at)? {
        let kind = kind_of(chunk.id);
        let end = chunk.start + chunk.size;
        chunk_wrong(&form[chunk.start..end], came[kind], kind)?;
        came[kind] = SINGLE[kind];
        at = chunk.next;
    }
    Ok(())
}
