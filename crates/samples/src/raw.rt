// Raw samples: each byte is one, signed.
ghost use Rattle.std.specs.Prelude.{◌≡◌, map, ◌≤◌, length};
ghost use Rattle.laws.specs.Buffer.{written};
ghost use Rattle.refusal.specs.Outcome.{answer, buffer_after};
ghost use Rattle.std.specs.Prelude.{Ok};
ghost use Rattle.field.specs.Signed.{sample_of, byte_of};

use refusal::Refusal;

// Each element of a list converted, at the front of `out`; 20 where they don't fit.
fn convert_into<A: Copy, B: Copy, F: Fn(A) -> B>(
    convert: F,
    from: &[A],
    out: &mut [B],
) -> Result<usize, Refusal>
    ghost f: { A → B }
    requires callable { F.IsAlwaysCallable convert }
    requires converts { (x : A) (y : B) → F.post convert x y → y ≡ f x }
    ensures result { result ≡ answer (Ok (map f from.now)) (length out.old) }
    ensures buffer { out.new ≡ buffer_after (Ok (map f from.now)) out.old }
{
    let n = from.len();
    if out.len() < n {
        return Err(Refusal::BufferShort);
    }
    for (i, x) in from.iter().enumerate() {
        out[i] = convert(*x);
    }
    Ok(n)
}

// The samples of raw bytes; 20 where they don't fit.
pub fn decode_raw(body: &[u8], out: &mut [i8]) -> Result<usize, Refusal>
    ensures result { result ≡ answer (Ok (map sample_of body.now)) (length out.old) }
    ensures buffer { out.new ≡ buffer_after (Ok (map sample_of body.now)) out.old }
{
    convert_into(|byte| field::sample_of_byte(byte), body, out)
}

// The raw bytes of samples; 20 where they don't fit.
pub fn encode_raw(samples: &[i8], out: &mut [u8]) -> Result<usize, Refusal>
    ensures result { result ≡ answer (Ok (map byte_of samples.now)) (length out.old) }
    ensures buffer { out.new ≡ buffer_after (Ok (map byte_of samples.now)) out.old }
{
    convert_into(|sample| field::byte_of_sample(sample), samples, out)
}
