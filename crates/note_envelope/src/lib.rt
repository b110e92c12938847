// The joined points of a sheet's attacks or releases, followed by a cursor that only moves on: over a block each point is read once.
#![tactic(auto)]

ghost use Rattle.std.specs.Prelude.{◌<◌, ◌^◌};
ghost use Rattle.sheet_layout.specs.Members.{Whole};
ghost use Rattle.note_envelope.specs.Cursor.{Ready, Moved, Stood, Follows};

use envelope::on_the_way;
use sheet_layout::next_member;
use small_chunks::{held_to_unity, read_point};

// Past every time that is asked for.
const NEVER: usize = usize::MAX;

// The point in hand is the first from `at` on, and begins `before` milliseconds from the start at `level`. `now` is the level, held within
// 0..65,536, and `ended` says that no point is left; both are so from the time that was asked for up to `until`.
#[derive(Clone, Copy)]
pub struct EnvelopeCursor {
    pub at: usize,
    pub before: usize,
    pub level: i32,
    pub now: u32,
    pub ended: bool,
    pub until: usize,
}

// The cursor moved to t, which is no earlier than the point in hand.
// No iterator of its own: it would be that of the path's segments over again, for this loop alone.
fn seek(part: &[u8], e: EnvelopeCursor, t: usize) -> EnvelopeCursor
    requires { Ready part.now e t × (t < 2 ^ 62) }
    ensures { Moved part.now e t result }
{
    let mut at = e.at;
    let mut before = e.before;
    let mut level = e.level;
    // looked for here and at each turn's end, so that must-fail/opener_as_point spoils the second alone
    let mut here = next_member(part, at, 6);
    while let Some(place) = here {
        let body = place + 1;
        let p = read_point(part, body);
        let into = t - before;
        let duration = p.duration_ms as usize;
        if into < duration {
            let until = t + 1;
            return EnvelopeCursor {
                at: place,
                before,
                level,
                now: held_to_unity(on_the_way(level, p.dest, into as u16, p.duration_ms)),
                ended: false,
                until,
            };
        }
        at = place + 7;
        before += duration;
        level = p.dest;
        here = next_member(part, at, 6);
    }
    EnvelopeCursor {
        at,
        before,
        level,
        now: held_to_unity(level),
        ended: true,
        until: NEVER,
    }
}

// A cursor at t on an envelope that begins at `start`.
pub fn cursor_at(part: &[u8], start: i32, t: usize) -> EnvelopeCursor
    requires { Whole 6 6 part.now × (t < 2 ^ 62) }
    ensures { Follows part.now start t result × (t < result.until) }
{
    seek(
        part,
        EnvelopeCursor {
            at: 0,
            before: 0,
            level: start,
            now: 0,
            ended: false,
            until: 0,
        },
        t,
    )
}

// The cursor at t, no earlier than where it stood. Nothing is done where what it says still is so: within a millisecond, and for ever
// once no point is left.
pub fn cursor_to(part: &[u8], e: EnvelopeCursor, t: usize) -> EnvelopeCursor
    requires { Stood part.now e t × (t < 2 ^ 62) }
    ensures { Moved part.now e t result }
{
    if t < e.until {
        return e;
    }
    seek(part, e, t)
}
