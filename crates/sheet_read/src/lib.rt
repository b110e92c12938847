// The sheet of a FORM: its chunks' contents as records, in the sheet's order. Each function stores at a place and answers the
// place past its records; what does not fit is passed over, so over an empty slice they measure.
#![tactic(auto)]

mod part;
mod text_chunk;

ghost use Rattle.std.specs.Prelude.{◌≡◌, length};
ghost use Rattle.laws.specs.Put.{Put};
ghost use Rattle.chunk.specs.Chunk.{items_from};
ghost use Rattle.sheet.specs.Flat.{flat};
ghost use Rattle.sheet_read.specs.FormVoice.{form_voice};
ghost use Rattle.sheet_read.specs.ForCode.{Readable};

use part::{put_channel, put_envelopes, put_part, put_sequence};
use text_chunk::put_texts;

// The whole sheet, from the buffer's front on.
pub fn put_sheet(form: &[u8], d: &mut [u8]) -> usize
    requires { Readable form.now }
    ensures { Put d.old 0 (flat (form_voice (items_from form.now 12))) d.new result }
{
    let channel = put_part(form, form::VHDR, 1, 20, d, 0);
    let pan = put_channel(form, d, channel);
    let attacks = put_part(form, form::PAN, 3, 4, d, pan);
    let releases = put_envelopes(form, form::ATAK, 4, d, attacks);
    let sequence = put_envelopes(form, form::RLSE, 5, d, releases);
    let fade = put_sequence(form, d, sequence);
    let texts = put_part(form, form::FADE, 9, 4, d, fade);
    put_texts(form, d, texts)
}

// How long the sheet is.
pub fn sheet_length(form: &[u8]) -> usize
    requires { Readable form.now }
    ensures { result ≡ length (flat (form_voice (items_from form.now 12))) }
{
    let mut nowhere = [0u8; 0];
    put_sheet(form, &mut nowhere)
}
