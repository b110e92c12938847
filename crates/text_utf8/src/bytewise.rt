// Well-formedness one byte at a time, for bytes that do not lie side by side. The state is what has to follow.
ghost use Rattle.std.specs.Prelude.{◌≡◌, [], Some};
ghost use Rattle.text_utf8.specs.Feed.{fed, complete};
ghost use Rattle.text_utf8.specs.Lead.{led};

use crate::table::{Follow, lead_of};

// The state after one byte more.
pub fn feed(state: Option<Follow>, b: u8) -> Option<Follow>
    ensures { led result ≡ fed (led state) b }
{
    let follow = state?;
    if follow.more == 0 {
        lead_of(b)
    } else if follow.takes(b) {
        Some(follow.after_one())
    } else {
        None
    }
}

// The state between two scalar values, which is that before the first byte too.
pub fn between() -> Option<Follow>
    ensures { led result ≡ Some [] }
{
    Some(Follow::new(0, 0, 0))
}

// The bytes so far are well-formed.
pub fn is_between(state: Option<Follow>) -> bool
    ensures { result ≡ complete (led state) }
{
    matches!(state, Some(Follow { more: 0, .. }))
}
