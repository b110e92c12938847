// CHAN: on which speaker a mono voice plays, or that there are two channels.
ghost use Rattle.std.specs.Prelude.{◌≡◌};
ghost use Rattle.field.specs.BigEndian.{big_endian_bytes};
ghost use Rattle.small_chunks.specs.Channel.{channel_of, is_channel, channel_value_of, channel_count, parsed_channel};

use refusal::Refusal;

#[derive(Clone, Copy)]
pub enum ChannelAssignment {
    // 2: mono, on the left.
    Left,
    // 4: mono, on the right.
    Right,
    // 6: two channels.
    Stereo,
}

// That a value stands for an assignment.
pub fn is_channel(v: u32) -> bool
    ensures { result ≡ is_channel v }
{
    ChannelAssignment::from_raw(v).is_ok()
}

impl ChannelAssignment {
    // The assignment that a value stands for; 7 where there is none.
    pub fn from_raw(v: u32) -> Result<ChannelAssignment, Refusal>
        ensures { result ≡ channel_of v }
    {
        if v == 2 {
            return Ok(ChannelAssignment::Left);
        }
        if v == 4 {
            return Ok(ChannelAssignment::Right);
        }
        if v == 6 {
            return Ok(ChannelAssignment::Stereo);
        }
        Err(Refusal::ChannelValue)
    }

    // The assignment of a CHAN chunk: all four bytes count.
    pub fn parse(body: &[u8]) -> Result<ChannelAssignment, Refusal>
        ensures { result ≡ parsed_channel body.now }
    {
        if body.len() < 4 {
            return Err(Refusal::ChunkLength);
        }
        let v = field::read32(body, 0);
        ChannelAssignment::from_raw(v)
    }

    // The value that stands for it.
    pub fn raw(self) -> u32
        ensures { result ≡ channel_value_of self }
    {
        match self {
            ChannelAssignment::Left => 2,
            ChannelAssignment::Right => 4,
            ChannelAssignment::Stereo => 6,
        }
    }

    // The four bytes of CHAN.
    pub fn write(self) -> [u8; 4]
        ensures { result ≡ big_endian_bytes 4 (channel_value_of self) }
    {
        field::bytes32(self.raw())
    }

    // How many channels BODY has.
    pub fn channel_count(self) -> u16
        ensures { result ≡ channel_count self }
    {
        match self {
            ChannelAssignment::Left => 1,
            ChannelAssignment::Right => 1,
            ChannelAssignment::Stereo => 2,
        }
    }
}
