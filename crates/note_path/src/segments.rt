// The segments of a sequence, one after another.
ghost use Rattle.std.specs.Iterator.{item_count};
ghost use Rattle.note_path.specs.Segments.{Stands, Takes, left};

use sheet_layout::next_member;
use small_chunks::{SeqnSegment, read_segment};

// Those from a place of a sheet's part on.
#[derive(Drop)]
pub(crate) struct Segments<'a> {
    pub(crate) part: &'a [u8],
    pub(crate) at: usize,
}

impl<'a> Iterator for Segments<'a> {
    type Item = SeqnSegment;

    ghost can_next = { Stands };

    ghost next_gives = { Takes };

    ghost remaining = { item_count left };

    fn next(&mut self) -> Option<SeqnSegment> {
        let at = next_member(self.part, self.at, 8)?;
        let body = at + 1;
        self.at = at + 9;
        Some(read_segment(self.part, body))
    }
}
