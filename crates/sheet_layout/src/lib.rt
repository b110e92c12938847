// Where the parts of a sound sheet lie, and what they are. A caller has judged the sheet; the walk here passes over envelopes and
// segments alone, so texts cost nothing.
#![tactic(auto)]

mod members;

ghost use Rattle.std.specs.Prelude.{◌≡◌, ◌+◌, ◌≤◌, drop, length, Ok, option_map};
ghost use Rattle.sheet.specs.Judge.{judged};
ghost use Rattle.sheet.specs.Read.{read_sheet};
ghost use Rattle.sheet.specs.Voice.{is_stereo};
ghost use Rattle.sheet_layout.specs.Layout.{layout_of};
ghost use Rattle.sheet_layout.specs.Stretch.{one_length, stretch};

use header::{VoiceHeader, read_header};
pub use members::next_member;
use small_chunks::{ChannelAssignment, Fade, Pan, read_fade, read_pan};

// The place where each part begins: what may be missing then ends where it begins.
#[derive(Clone, Copy)]
pub struct Layout {
    pub channel: usize,
    pub pan: usize,
    pub attacks: usize,
    pub releases: usize,
    pub sequence: usize,
    pub fade: usize,
    pub texts: usize,
}

// Past a record of a kind, n bytes long with its kind, where one stands at a place.
fn past_one(sheet: &[u8], at: usize, kind: u8, n: usize) -> usize
    requires { n ≤ 16 }
    ensures { result ≡ at + one_length kind n (drop at sheet.now) }
{
    if sheet.get(at) == Some(&kind) {
        at + n
    } else {
        at
    }
}

// Past the records that open groups of a kind and their members, which are n bytes long with their kind.
fn past_groups(sheet: &[u8], at: usize, opens: u8, member: u8, n: usize) -> usize
    requires { (1 ≤ n) × (n ≤ 16) }
    ensures { result ≡ at + stretch opens member n (drop at sheet.now) }
{
    let mut i = at;
    while let Some(kind) = sheet.get(i) {
        if *kind == opens {
            i += 1;
        } else if *kind == member {
            i += n;
        } else {
            break;
        }
    }
    i
}

// The places of a sound sheet.
pub fn layout_of(sheet: &[u8]) -> Layout
    requires { judged sheet.now ≡ Ok tt }
    ensures { result ≡ layout_of (read_sheet sheet.now) }
{
    let channel = 21;
    let pan = past_one(sheet, channel, 2, 2);
    let attacks = past_one(sheet, pan, 3, 5);
    let releases = past_groups(sheet, attacks, 4, 6, 7);
    let sequence = past_groups(sheet, releases, 5, 6, 7);
    let fade = past_groups(sheet, sequence, 7, 8, 9);
    let texts = past_one(sheet, fade, 9, 5);
    Layout {
        channel,
        pan,
        attacks,
        releases,
        sequence,
        fade,
        texts,
    }
}

// The header of a sound sheet.
pub fn sheet_header(sheet: &[u8]) -> VoiceHeader
    requires { judged sheet.now ≡ Ok tt }
    ensures { result ≡ (read_sheet sheet.now).header }
{
    read_header(sheet, 1)
}

// That it has two channels. A channel's record, where there is one, follows the header's.
pub fn sheet_stereo(sheet: &[u8]) -> bool
    requires { judged sheet.now ≡ Ok tt }
    ensures { result ≡ is_stereo (read_sheet sheet.now).channel }
{
    let pan = past_one(sheet, 21, 2, 2);
    if pan == 21 {
        return false;
    }
    sheet[22] == 6
}

// Its channel, where it has one.
pub fn sheet_channel(sheet: &[u8], l: Layout) -> Option<ChannelAssignment>
    requires { (judged sheet.now ≡ Ok tt) × (l ≡ layout_of (read_sheet sheet.now)) }
    ensures { result ≡ (read_sheet sheet.now).channel }
{
    let at = l.channel;
    if at == l.pan {
        return None;
    }
    let body = at + 1;
    ChannelAssignment::from_raw(sheet[body] as u32).ok()
}

// Its pan, where it has one.
pub fn sheet_pan(sheet: &[u8], l: Layout) -> Option<Pan>
    requires { (judged sheet.now ≡ Ok tt) × (l ≡ layout_of (read_sheet sheet.now)) }
    ensures { result ≡ (read_sheet sheet.now).pan }
{
    let at = l.pan;
    if at == l.attacks {
        return None;
    }
    let body = at + 1;
    Some(read_pan(sheet, body))
}

// Its fade, where it has one.
pub fn sheet_fade(sheet: &[u8], l: Layout) -> Option<Fade>
    requires { (judged sheet.now ≡ Ok tt) × (l ≡ layout_of (read_sheet sheet.now)) }
    ensures { result ≡ (read_sheet sheet.now).fade }
{
    let at = l.fade;
    if at == l.texts {
        return None;
    }
    let body = at + 1;
    Some(read_fade(sheet, body))
}

// Its sequence, where it has one: how many segments. Each takes nine bytes after the byte that begins the sequence.
pub fn sheet_sequence(sheet: &[u8], l: Layout) -> Option<usize>
    requires { (judged sheet.now ≡ Ok tt) × (l ≡ layout_of (read_sheet sheet.now)) }
    ensures { result ≡ option_map length (read_sheet sheet.now).sequence }
{
    let at = l.sequence;
    if at == l.fade {
        return None;
    }
    let segments = (l.fade - at - 1) / 9;
    Some(segments)
}
