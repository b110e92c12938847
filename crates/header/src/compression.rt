// How BODY is stored.
ghost use Rattle.std.specs.Prelude.{◌≡◌};
ghost use Rattle.header.specs.Compression.{known_compression};

use refusal::Refusal;

#[derive(Clone, Copy)]
pub enum Compression {
    // Each byte is a sample.
    None,
    // Fibonacci deltas, two to a byte.
    Fibonacci,
}

// The compression that a header's byte names; 10 for a byte above 1.
pub fn known_compression(byte: u8) -> Result<Compression, Refusal>
    ensures { result ≡ known_compression byte }
{
    if byte == 0 {
        return Ok(Compression::None);
    }
    if byte == 1 {
        return Ok(Compression::Fibonacci);
    }
    Err(Refusal::UnknownCompression)
}
