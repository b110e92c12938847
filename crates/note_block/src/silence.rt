// What follows the frames that aren't over: silence, to the buffer's end.
ghost use Rattle.std.specs.Prelude.{◌≡◌, ◌++◌, ◌-◌, ◌≤◌, min, pos, length, take, replicate};

// The smaller of two numbers.
pub fn least(a: usize, b: usize) -> usize
    ensures { result ≡ min a b }
{
    a.min(b)
}

// Zeros from a place on.
pub fn silence_from(out: &mut [i16], from: usize)
    requires { from ≤ length out.old }
    ensures { out.new ≡ take from out.old ++ replicate (length out.old - from) (pos 0) }
{
    out[from..].fill(0);
}
