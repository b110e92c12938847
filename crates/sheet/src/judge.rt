// A sheet judged in one pass: kinds, order and values, and the texts byte by byte beside them.
ghost use Rattle.std.specs.Prelude.{◌≡◌, ◌<◌, get_or};
ghost use Rattle.sheet.specs.Order.{misplaced, group_after, value_wrong};
ghost use Rattle.sheet.specs.TextState.{text_state_of, no_texts, texts_after, all_well};
ghost use Rattle.sheet.specs.Judge.{judged};

use crate::record::record_at;
use refusal::Refusal;
use small_chunks::is_channel;
use text_utf8::{Follow, between, feed, is_between};

// A kind may come where the group in hand is from EARLIEST to LATEST.
const EARLIEST: [u8; 12] = [0, 0, 1, 1, 1, 1, 4, 1, 7, 1, 1, 10];

const LATEST: [u8; 12] = [0, 0, 1, 2, 4, 5, 5, 5, 7, 7, 10, 10];

fn is_misplaced(group: u8, kind: u8) -> bool
    requires { kind < 12 }
    ensures { result ≡ misplaced group kind }
{
    let k = kind as usize;
    !(EARLIEST[k]..=LATEST[k]).contains(&group)
}

// The group in hand after a record of a kind.
fn group_after(group: u8, kind: u8) -> u8
    ensures { result ≡ group_after group kind }
{
    match kind {
        6 | 8 | 11 => group,
        _ => kind,
    }
}

// A channel whose value stands for no assignment, or a text's key that is not 1 to 5.
fn is_value_wrong(kind: u8, value: u8) -> bool
    ensures { result ≡ value_wrong kind value }
{
    if kind == 2 {
        return !is_channel(value as u32);
    }
    if kind == 10 {
        return value == 0 || 5 < value;
    }
    false
}

// The first byte of a body, 0 where it has none.
fn first_byte(body: &[u8]) -> u8
    ensures { result ≡ get_or body.now 0 0 }
{
    body.first().copied().unwrap_or(0)
}

// How far the texts are judged: what has to follow in the text in hand, and that an earlier one is ill-formed.
#[derive(Clone, Copy)]
struct TextState {
    lead: Option<Follow>,
    ill: bool,
}

impl TextState {
    fn start() -> Self
        ensures { text_state_of result ≡ no_texts }
    {
        TextState {
            lead: between(),
            ill: false,
        }
    }

    // After a record: 10 ends the text in hand, and 11 is one byte more of it.
    fn after(self, kind: u8, value: u8) -> Self
        ensures { text_state_of result ≡ texts_after (text_state_of self) kind value }
    {
        if kind == 11 {
            return TextState {
                lead: feed(self.lead, value),
                ill: self.ill,
            };
        }
        if kind == 10 {
            return TextState {
                lead: between(),
                ill: !self.is_well_formed(),
            };
        }
        self
    }

    // The text in hand, as it stands, and all before it.
    fn is_well_formed(self) -> bool
        ensures { result ≡ all_well (text_state_of self) }
    {
        !self.ill && is_between(self.lead)
    }
}

// 15 or 16 for the first bad record, 16 for a sheet without a header, then 17 where a text is not UTF-8.
pub fn judge_sheet(sheet: &[u8]) -> Result<(), Refusal>
    ensures { result ≡ judged sheet.now }
{
    let mut group = 0;
    let mut texts = TextState::start();
    let mut at = 0;
    while let Some(record) = record_at(sheet, at)? {
        let kind = record.kind;
        if is_misplaced(group, kind) {
            return Err(Refusal::RecordWrong);
        }
        let value = first_byte(&sheet[record.start..record.next]);
        if is_value_wrong(kind, value) {
            return Err(Refusal::RecordWrong);
        }
        group = group_after(group, kind);
        texts = texts.after(kind, value);
        at = record.next;
    }
    if group == 0 {
        return Err(Refusal::RecordWrong);
    }
    if texts.is_well_formed() {
        return Ok(());
    }
    Err(Refusal::TextIllFormed)
}
