// Records written at a place of a lent buffer. What does not fit is passed over, so that the same calls over an empty slice
// measure. Each answers the place past its record. A record whose body is that of its chunk (header, pan, point, segment,
// fade) is written by `field::put_record` with its kind and its bytes, and many of one length by `field::put_tagged`.
ghost use Rattle.std.specs.Prelude.{[], ◌∷◌, ◌++◌, ◌+◌, ◌^◌, ◌<◌, length};
ghost use Rattle.laws.specs.Put.{Put};
ghost use Rattle.small_chunks.specs.Channel.{channel_value_of};
ghost use Rattle.text.specs.Text.{clean};
ghost use Rattle.text.specs.TextRecords.{text_records};

use field::put_byte;
use small_chunks::ChannelAssignment;

// 2: the channel, in one byte.
pub fn put_channel(c: ChannelAssignment, d: &mut [u8], at: usize) -> usize
    requires { at < 2 ^ 62 }
    ensures { Put d.old at (2 ∷ channel_value_of c ∷ []) d.new result }
{
    let value = (c.raw() % 256) as u8;
    let o = put_byte(d, at, 2);
    put_byte(d, o, value)
}

// 10 and its 11s: a text chunk, cleaned. It is for the caller to pass over a text that cleaning leaves empty.
pub fn put_text(key: u8, payload: &[u8], d: &mut [u8], at: usize) -> usize
    requires { at + 2 + length (text_records (clean payload.now)) < 2 ^ 63 }
    ensures { Put d.old at ((10 ∷ key ∷ []) ++ text_records (clean payload.now)) d.new result }
{
    let o = put_byte(d, at, 10);
    let p = put_byte(d, o, key);
    text::put_text(payload, d, p)
}
