// The shares of the sides.
ghost use Rattle.std.specs.Prelude.{◌≡◌};
ghost use Rattle.note_frame.specs.Shares.{pan_else, shares_of};

use small_chunks::{ChannelAssignment, Pan, held_to_unity};

// How much of a value each side gets: 65,536 is all of it.
#[derive(Clone, Copy)]
pub(crate) struct Shares {
    pub left: u32,
    pub right: u32,
}

// By the pan where there is one, else as given.
fn pan_else(pan: Option<Pan>, left: u32, right: u32) -> Shares
    ensures { result ≡ pan_else pan (record { left = left; right = right }) }
{
    match pan {
        None => Shares { left, right },
        Some(p) => {
            let left = held_to_unity(p.position);
            let right = 65536 - left;
            Shares { left, right }
        }
    }
}

// By the pan, else by the channel; two channels have a side each, and no pan counts for them.
pub(crate) fn side_shares(channel: Option<ChannelAssignment>, pan: Option<Pan>) -> Shares
    ensures { result ≡ shares_of channel pan }
{
    match channel {
        None => pan_else(pan, 65536, 65536),
        Some(c) => match c {
            ChannelAssignment::Left => pan_else(pan, 65536, 0),
            ChannelAssignment::Right => pan_else(pan, 0, 65536),
            ChannelAssignment::Stereo => pan_else(None, 65536, 65536),
        },
    }
}
