// The chunk walk of a FORM: where it ends, and what stands at a place of it; and chunks written.
#![tactic(auto)]

mod write;

ghost use Rattle.std.specs.Prelude.{◌≡◌, ◌^◌, ◌<◌, length, take};
ghost use Rattle.chunk.specs.Chunk.{end_of};
ghost use Rattle.chunk.specs.ForCode.{step_at};

use field::read32;
use refusal::Refusal;
pub use write::{put_chunk, put_head, put_pad};

// A whole chunk: its name, the place and the size of its payload, and the place past that and the pad byte.
#[derive(Clone, Copy, Debug, PartialEq, Eq)]
pub struct Chunk {
    pub id: u32,
    pub start: usize,
    pub size: usize,
    pub next: usize,
}

// Where the walk of a file ends: where the length in bytes 4 to 7 says, or at the file's end if that comes first.
pub fn walk_end(file: &[u8]) -> usize
    ensures { (result ≡ end_of file.now) × (result < 2 ^ 33) }
{
    let n = file.len();
    if n < 8 {
        return n;
    }
    let end = read32(file, 4) as usize + 8;
    if n <= end {
        return n;
    }
    end
}

// The part of the file that the walk goes over: it begins where the file does.
pub fn form(file: &[u8]) -> &[u8]
    ensures contents { result.now ≡ take (end_of file.now) file.now }
    ensures short { length result.now < 2 ^ 33 }
    ensures place { result.ref_ptr ≡ file.entry.ref_ptr }
{
    let end = walk_end(file);
    &file[..end]
}

// The chunk at a place of the form, or none where fewer than eight bytes are left; 4 where it runs past the FORM.
pub fn chunk_at(form: &[u8], at: usize) -> Result<Option<Chunk>, Refusal>
    ensures { result ≡ step_at form.now at }
{
    let n = form.len();
    if n <= at {
        return Ok(None);
    }
    let left = n - at;
    if left < 8 {
        return Ok(None);
    }
    let id = read32(form, at);
    let size = read32(form, at + 4) as usize;
    if left - 8 < size {
        return Err(Refusal::ChunkPastForm);
    }
    let start = at + 8;
    let end = start + size;
    let next = end + size % 2;
    Ok(Some(Chunk {
        id,
        start,
        size,
        next,
    }))
}
