// A sheet record by record.
ghost use Rattle.std.specs.Prelude.{◌≡◌};
ghost use Rattle.sheet.specs.Record.{record_at};

use refusal::Refusal;

// A record: its kind, the place of its body and the place past it.
#[derive(Clone, Copy, Debug, PartialEq, Eq)]
pub struct Record {
    pub kind: u8,
    pub start: usize,
    pub next: usize,
}

// The length of a kind's body.
const BODY_LENGTHS: [usize; 12] = [0, 20, 1, 4, 0, 0, 6, 0, 8, 4, 1, 1];

// The record at a place, or none at the end: 16 for a kind that is not 1 to 11, else 15 for a body that the sheet's end cuts off.
// It judges neither order nor values, and a place past the end is the end.
pub fn record_at(sheet: &[u8], at: usize) -> Result<Option<Record>, Refusal>
    ensures { result ≡ record_at sheet.now at }
{
    let n = sheet.len();
    if n <= at {
        return Ok(None);
    }
    let kind = sheet[at];
    if kind == 0 {
        return Err(Refusal::RecordWrong);
    }
    if 11 < kind {
        return Err(Refusal::RecordWrong);
    }
    let start = at + 1;
    let k = kind as usize;
    let length = BODY_LENGTHS[k];
    if n - start < length {
        return Err(Refusal::RecordCut);
    }
    let next = start + length;
    Ok(Some(Record { kind, start, next }))
}
