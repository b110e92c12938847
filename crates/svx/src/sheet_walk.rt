// The sheet record by record, and judged.
ghost use Rattle.std.specs.Prelude.{◌≡◌};
ghost use Rattle.sheet.specs.Judge.{judged};
ghost use Rattle.sheet.specs.Record.{record_at};
ghost use Rattle.svx.specs.Answers.{refusal_number};
ghost use Rattle.svx.specs.Shapes.{record_of};

use crate::hand::refusal_number;
use voice::{judge_sheet, record_at};

// step: 0 a record, 1 the end, 2 refused by 15, 3 refused by 16. The rest is 0 unless step is 0.
#[repr(C)]
#[derive(Clone, Copy)]
pub struct SvxRecord {
    pub step: u8,
    pub kind: u8,
    pub start: u64,
    pub next: u64,
}

fn no_record(step: u8) -> SvxRecord
    ensures { result ≡ record { step = step; kind = 0; start = 0; next = 0 } }
{
    SvxRecord {
        step,
        kind: 0,
        start: 0,
        next: 0,
    }
}

#[unsafe(no_mangle)]
pub extern "C" fn svx_sheet_record(sheet: &[u8], at: u64) -> SvxRecord
    ensures { result ≡ record_of (record_at sheet.now at) }
{
    match record_at(sheet, at as usize) {
        Ok(Some(record)) => SvxRecord {
            step: 0,
            kind: record.kind,
            start: record.start as u64,
            next: record.next as u64,
        },
        Ok(None) => no_record(1),
        Err(refusal) if refusal.number() == 15 => no_record(2),
        Err(_) => no_record(3),
    }
}

#[unsafe(no_mangle)]
pub extern "C" fn svx_sheet_judge(sheet: &[u8]) -> u32
    ensures { result ≡ refusal_number (judged sheet.now) }
{
    refusal_number(judge_sheet(sheet))
}
