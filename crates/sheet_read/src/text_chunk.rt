// The texts of the sheet.
ghost use Rattle.std.specs.Prelude.{◌≡◌, ◌+◌, ◌^◌, ◌<◌, length};
ghost use Rattle.laws.specs.Put.{Put};
ghost use Rattle.laws.specs.Walk.{each};
ghost use Rattle.chunk.specs.Chunk.{items_from};
ghost use Rattle.sheet.specs.Flat.{flat_text};
ghost use Rattle.text.specs.Text.{clean};
ghost use Rattle.sheet_read.specs.FormVoice.{text_key, text_of};
ghost use Rattle.sheet_read.specs.Parts.{text_part};

use chunk::chunk_at;
use form::{ANNO, AUTH, CHRS, COPYRIGHT, NAME};
use text::clean_len;

// The key of a text chunk's name, 0 for another name.
fn text_key(id: u32) -> u8
    ensures { result ≡ text_key id }
{
    match id {
        NAME => 1,
        AUTH => 2,
        ANNO => 3,
        COPYRIGHT => 4,
        CHRS => 5,
        _ => 0,
    }
}

// The text of a payload, where there is a key and cleaning leaves something.
fn put_text(key: u8, payload: &[u8], d: &mut [u8], at: usize) -> usize
    requires { (length payload.now < 2 ^ 33) × (at < 2 ^ 62) }
    ensures { Put d.old at (each flat_text (text_of key (clean payload.now))) d.new result }
{
    if key == 0 {
        return at;
    }
    if clean_len(payload) == 0 {
        return at;
    }
    sheet::put_text(key, payload, d, at)
}

// The texts of all text chunks, in file order.
pub(crate) fn put_texts(form: &[u8], d: &mut [u8], at: usize) -> usize
    requires { (length form.now < 2 ^ 33) × (at < 2 ^ 61) }
    ensures { Put d.old at (text_part (items_from form.now 12)) d.new result }
{
    let mut o = at;
    let mut p = 12;
    while let Some(chunk) = chunk_at(form, p).unwrap_or(None) {
        let end = chunk.start + chunk.size;
        o = put_text(text_key(chunk.id), &form[chunk.start..end], d, o);
        p = chunk.next;
    }
    o
}
