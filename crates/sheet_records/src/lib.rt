// A reader that walks a sheet one record at a time, for code that only inspects: it judges neither order nor values.
// It is a small struct that holds the sheet and a place. Functions over the struct are few and thin; `read_step` serves callers that
// keep the place themselves.
#![tactic(auto)]

ghost use Rattle.std.specs.Prelude.{◌≡◌};
ghost use Rattle.sheet.specs.Record.{record_at};
ghost use Rattle.sheet_records.specs.Steps.{place_after, moved_by};

use refusal::Refusal;
use sheet::{Record, record_at};

// A sheet and a place in it.
#[derive(Clone, Copy)]
pub struct SheetReader<'a> {
    pub sheet: &'a [u8],
    pub at: usize,
}

// Where a reader stands after a step: past a record, and where it was otherwise.
pub fn place_after(step: Result<Option<Record>, Refusal>, at: usize) -> usize
    ensures { result ≡ place_after step at }
{
    match step {
        Ok(Some(record)) => record.next,
        _ => at,
    }
}

// A reader at the sheet's front.
pub fn new<'a>(sheet: &'a [u8]) -> SheetReader<'a>
    ensures { (result.sheet ≡ sheet.entry) × (result.at ≡ 0) }
{
    SheetReader { sheet, at: 0 }
}

// The record where the reader stands.
pub fn next<'a>(r: SheetReader<'a>) -> Result<Option<Record>, Refusal>
    ensures { result ≡ record_at r.entry.sheet.now r.entry.at }
{
    record_at(r.sheet, r.at)
}

// The reader at another place.
pub fn moved<'a>(r: SheetReader<'a>, at: usize) -> SheetReader<'a>
    ensures { (result.sheet ≡ r.entry.sheet) × (result.at ≡ at) }
{
    SheetReader { sheet: r.sheet, at }
}

// The record where the reader stands; the reader moves past it. At the end, at an unknown kind and at a cut record it stays.
pub fn advance<'s, 'a>(r: &'s mut SheetReader<'a>) -> Result<Option<Record>, Refusal>
    ensures { (result ≡ record_at r.old.sheet.now r.old.at) × (r.new ≡ moved_by r.old result) }
{
    let at = r.at;
    let s = record_at(r.sheet, at);
    let to = place_after(s, at);
    r.at = to;
    s
}

// The record at a place, by a reader of its own.
pub fn read_step(sheet: &[u8], at: usize) -> Result<Option<Record>, Refusal>
    ensures { result ≡ record_at sheet.now at }
{
    next(moved(new(sheet), at))
}
