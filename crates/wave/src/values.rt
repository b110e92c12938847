// Samples as the values of a WAVE.
ghost use Rattle.std.specs.Prelude.{◌≡◌, true, map, ◌+◌, ◌≤◌, length};
ghost use Rattle.laws.specs.Buffer.{written};
ghost use Rattle.laws.specs.Put.{Put};
ghost use Rattle.laws.specs.Turns.{by_turns};
ghost use Rattle.wave.specs.Wave.{value_of, values_of};

// The sample plus 128.
fn value_of(s: i8) -> u8
    ensures { result ≡ value_of s }
{
    let sum = s as i16 + 128;
    sum as u8
}

// The values of one channel, at the front of a buffer.
fn write_one(samples: &[i8], out: &mut [u8])
    requires { length samples.now ≤ length out.old }
    ensures { out.new ≡ written (map value_of samples.now) out.old }
{
    for (i, &s) in samples.iter().enumerate() {
        out[i] = value_of(s);
    }
}

// The values of two channels, left and right by turns, at the front of a buffer.
fn write_two(left: &[i8], right: &[i8], out: &mut [u8])
    requires { (length left.now ≡ length right.now) × (length left.now + length left.now ≤ length out.old) }
    ensures { out.new ≡ written (by_turns (map value_of left.now) (map value_of right.now)) out.old }
{
    for (i, &s) in left.iter().enumerate() {
        out[i + i] = value_of(s);
        out[i + i + 1] = value_of(right[i]);
    }
}

// The values from a place on; the place past them.
pub(crate) fn put_values(stereo: bool, left: &[i8], right: &[i8], d: &mut [u8], at: usize) -> usize
    requires { (stereo ≡ true → length left.now ≡ length right.now) × (at + length (values_of stereo left.now right.now) ≤ length d.old) }
    ensures { Put d.old at (values_of stereo left.now right.now) d.new result }
{
    let n = left.len();
    if stereo {
        let pairs = n + n;
        write_two(left, right, &mut d[at..]);
        return at + pairs;
    }
    write_one(left, &mut d[at..]);
    at + n
}
