// PAN: where a mono voice stands between the speakers.
ghost use Rattle.std.specs.Prelude.{◌≡◌, ◌+◌, ◌≤◌, length, drop};
ghost use Rattle.small_chunks.specs.Pan.{pan_of, pan_bytes, parsed_pan, held_to_unity, pan_weights};

use refusal::Refusal;

#[derive(Clone, Copy)]
pub struct Pan {
    // 0 is right, 65,536 is left.
    pub position: i32,
}

// How much of the voice each speaker gets: together 1.
#[derive(Clone, Copy)]
pub struct PanWeights {
    pub left: f32,
    pub right: f32,
}

// A 16.16 number held within 0..65,536.
pub fn held_to_unity(z: i32) -> u32
    ensures { result ≡ held_to_unity z }
{
    if z <= 0 {
        return 0;
    }
    if z >= 65536 {
        return 65536;
    }
    z as u32
}

// The four bytes from `at` on.
pub fn read_pan(s: &[u8], at: usize) -> Pan
    requires { at + 4 ≤ length s.now }
    ensures { result ≡ pan_of (drop at s.now) }
{
    Pan {
        position: field::read_i32(s, at),
    }
}

impl Pan {
    // The position of a PAN chunk.
    pub fn parse(body: &[u8]) -> Result<Pan, Refusal>
        ensures { result ≡ parsed_pan body.now }
    {
        if body.len() < 4 {
            return Err(Refusal::ChunkLength);
        }
        Ok(read_pan(body, 0))
    }

    // The four bytes of PAN.
    pub fn write(self) -> [u8; 4]
        ensures { result ≡ pan_bytes self }
    {
        field::bytes32(field::bits_of_i32(self.position))
    }

    // The shares of the two speakers.
    pub fn weights(self) -> PanWeights
        ensures { result ≡ pan_weights self }
    {
        let n = held_to_unity(self.position);
        let left = n as f32 / 65536.0;
        let right = 1.0 - left;
        PanWeights { left, right }
    }
}
