// What a FORM's chunks give: the lengths, and the three outputs.
ghost use Rattle.std.specs.Prelude.{◌≡◌, not, ◌^◌, ◌≤◌, ◌<◌, length};
ghost use Rattle.chunk.specs.Chunk.{items_from};
ghost use Rattle.form.specs.FirstBad.{first_bad};
ghost use Rattle.form.specs.Find.{first_of};
ghost use Rattle.form.specs.Names.{body};
ghost use Rattle.sheet_read.specs.FormVoice.{form_voice};
ghost use Rattle.std.specs.Option.{is_some};
ghost use Rattle.sheet_read.specs.ForCode.{Readable};
ghost use Rattle.laws.specs.Buffer.{written};
ghost use Rattle.sheet.specs.Flat.{flat};
ghost use Rattle.sheet.specs.Read.{body_of};
ghost use Rattle.sheet.specs.Voice.{is_stereo};
ghost use Rattle.body_read.specs.Sides.{body_sides};
ghost use Rattle.body_read.specs.Answers.{SidesFit, left_after, right_after};
ghost use Rattle.voice_read.specs.Parsed.{needed_by};
ghost use Rattle.voice_read.specs.ReadVoice.{with_sides, read_items};

use body_read::{SideLengths, decode_sides, side_lengths};
use field::read32;
use form::{find, first_bad};
use header::{VoiceHeader, read_header};
use refusal::Refusal;
use sheet_read::{put_sheet, sheet_length};

// How many bytes and samples a reading has.
#[derive(Clone, Copy)]
pub struct Lengths {
    pub sheet: usize,
    pub left: usize,
    pub right: usize,
}

// That there is no chunk of a name.
fn is_missing(form: &[u8], id: u32) -> bool
    ensures { result ≡ not (is_some (first_of id (items_from form.now 12))) }
{
    find(form, id).is_none()
}

// The header. Without a VHDR, which a caller has refused by then, it is all zeros.
fn header_of(form: &[u8]) -> VoiceHeader
    requires { Readable form.now }
    ensures { result ≡ (form_voice (items_from form.now 12)).header }
{
    match find(form, form::VHDR) {
        Some(place) => read_header(form, place.start),
        None => VoiceHeader {
            one_shot_hi_samples: 0,
            repeat_hi_samples: 0,
            samples_per_hi_cycle: 0,
            samples_per_sec: 0,
            ct_octave: 0,
            compression_byte: 0,
            volume: 0,
        },
    }
}

// That CHAN says two channels.
fn is_stereo(form: &[u8]) -> bool
    requires { first_bad (items_from form.now 12) ≡ Ok tt }
    ensures { result ≡ is_stereo (form_voice (items_from form.now 12)).channel }
{
    let Some(place) = find(form, form::CHAN) else {
        return false;
    };
    read32(form, place.start) == 6
}

// BODY's bytes; none without a BODY.
fn body_of<'a>(form: &'a [u8]) -> &'a [u8]
    ensures { result.now ≡ body_of (first_of body (items_from form.now 12)) }
{
    let Some(place) = find(form, form::BODY) else {
        return &form[..0];
    };
    let end = place.start + place.size;
    &form[place.start..end]
}

// The lengths of a FORM with no bad chunk, a VHDR and a BODY; 10 to 14.
fn body_lengths(form: &[u8]) -> Result<Lengths, Refusal>
    requires { Readable form.now }
    ensures { result ≡ needed_by (with_sides (form_voice (items_from form.now 12)) (body_of (first_of body (items_from form.now 12)))) }
{
    let h = header_of(form);
    let stereo = is_stereo(form);
    let SideLengths { left, right } = side_lengths(h, stereo, body_of(form))?;
    let sheet = sheet_length(form);
    Ok(Lengths { sheet, left, right })
}

// The lengths of a FORM; 4 to 7 for the first bad chunk, then 8 to 14.
pub(crate) fn form_lengths(form: &[u8]) -> Result<Lengths, Refusal>
    requires { length form.now < 2 ^ 33 }
    ensures { result ≡ needed_by (read_items (items_from form.now 12)) }
{
    first_bad(form)?;
    if is_missing(form, form::VHDR) {
        return Err(Refusal::NoHeader);
    }
    if is_missing(form, form::BODY) {
        return Err(Refusal::NoBody);
    }
    body_lengths(form)
}

// Sheet and samples, at the fronts of buffers that are long enough.
pub(crate) fn write_outputs(form: &[u8], sheet: &mut [u8], left: &mut [i8], right: &mut [i8])
    requires { Readable form.now × (length (flat (form_voice (items_from form.now 12))) ≤ length sheet.old) × SidesFit (body_sides (form_voice (items_from form.now 12)).header (is_stereo (form_voice (items_from form.now 12)).channel) (body_of (first_of body (items_from form.now 12)))) (length left.old) (length right.old) }
    ensures sheet { sheet.new ≡ written (flat (form_voice (items_from form.now 12))) sheet.old }
    ensures left { left.new ≡ left_after (body_sides (form_voice (items_from form.now 12)).header (is_stereo (form_voice (items_from form.now 12)).channel) (body_of (first_of body (items_from form.now 12)))) left.old }
    ensures right { right.new ≡ right_after (body_sides (form_voice (items_from form.now 12)).header (is_stereo (form_voice (items_from form.now 12)).channel) (body_of (first_of body (items_from form.now 12)))) right.old }
{
    put_sheet(form, sheet);
    let h = header_of(form);
    let stereo = is_stereo(form);
    decode_sides(h, stereo, body_of(form), left, right);
}
