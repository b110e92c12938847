// Table 3-7: what a lead byte asks of the bytes that follow it.
ghost use Rattle.std.specs.Prelude.{◌≡◌, ◌-◌, ◌<◌};
ghost use Rattle.text_utf8.specs.Lead.{led};
ghost use Rattle.text_utf8.specs.Table.{to, within, following};

// What has to follow: `more` bytes, the first of them from `low` to `high`, the others from 80 to BF.
#[derive(Clone, Copy, Debug, PartialEq, Eq)]
pub struct Follow {
    pub(crate) more: usize,
    pub(crate) low: u8,
    pub(crate) high: u8,
}

impl Follow {
    pub(crate) fn new(more: usize, low: u8, high: u8) -> Self
        ensures { result ≡ record { more = more; low = low; high = high } }
    {
        Follow { more, low, high }
    }

    // The byte may come next.
    pub(crate) fn takes(self, b: u8) -> bool
        ensures { result ≡ within (to self.low self.high) b }
    {
        (self.low..=self.high).contains(&b)
    }

    // What has to follow the byte that comes next.
    pub(crate) fn after_one(self) -> Self
        requires { 0 < self.more }
        ensures { result ≡ record { more = self.more - 1; low = 0x80; high = 0xBF } }
    {
        Follow::new(self.more - 1, 0x80, 0xBF)
    }
}

// What has to follow a lead byte; none where the bytes are ill-formed whatever follows.
#[tactic(auto, unfolding(crate::specs::Table::following))]
pub fn lead_of(b: u8) -> Option<Follow>
    ensures { led result ≡ following b }
{
    let (more, low, high) = match b {
        0x00..=0x7F => (0, 0, 0),
        0xC2..=0xDF => (1, 0x80, 0xBF),
        0xE0 => (2, 0xA0, 0xBF),
        0xE1..=0xEC => (2, 0x80, 0xBF),
        0xED => (2, 0x80, 0x9F),
        0xEE..=0xEF => (2, 0x80, 0xBF),
        0xF0 => (3, 0x90, 0xBF),
        0xF1..=0xF3 => (3, 0x80, 0xBF),
        0xF4 => (3, 0x80, 0x8F),
        _ => return None,
    };
    Some(Follow { more, low, high })
}
