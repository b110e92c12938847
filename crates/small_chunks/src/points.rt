// A point of an envelope, as ATAK and RLSE have them.
ghost use Rattle.std.specs.Prelude.{◌≡◌, ◌+◌, ◌≤◌, length, drop};
ghost use Rattle.small_chunks.specs.Envelope.{point_of, point_bytes};

#[derive(Clone, Copy)]
pub struct EgPoint {
    pub duration_ms: u16,
    // The level at its end, 16.16: 65,536 is full.
    pub dest: i32,
}

// The six bytes from `at` on.
pub fn read_point(s: &[u8], at: usize) -> EgPoint
    requires { at + 6 ≤ length s.now }
    ensures { result ≡ point_of (drop at s.now) }
{
    let level = at + 2;
    EgPoint {
        duration_ms: field::read16(s, at),
        dest: field::read_i32(s, level),
    }
}

impl EgPoint {
    // Its six bytes.
    pub fn write(self) -> [u8; 6]
        ensures { result ≡ point_bytes self }
    {
        let mut out = [0; 6];
        let at = field::put16(&mut out, 0, self.duration_ms);
        field::put32(&mut out, at, field::bits_of_i32(self.dest));
        out
    }
}
