// BODY and its channels.
ghost use Rattle.std.specs.Prelude.{◌≡◌, length};
ghost use Rattle.refusal.specs.Outcome.{answer, buffer_after};
ghost use Rattle.std.specs.Prelude.{Ok};
ghost use Rattle.body_decode.specs.Body.{decoded_body};
ghost use Rattle.fibonacci.specs.Decode.{fib_channel};
ghost use Rattle.fibonacci.specs.Encode.{fib_bytes};
ghost use Rattle.svx.specs.Answers.{refusal_number, handed};

use crate::hand::hand_length;
use voice::{decode_body, fibonacci_decode_channel, fibonacci_encode_channel};

#[unsafe(no_mangle)]
pub extern "C" fn svx_decode_body(
    body: &[u8],
    compression: u8,
    channels: u16,
    frames: u64,
    out: &mut [u8],
    count: &mut u64,
) -> u32
    ensures result { result ≡ refusal_number (answer (decoded_body compression channels frames body.now) (length out.old)) }
    ensures count { count.new ≡ handed (answer (decoded_body compression channels frames body.now) (length out.old)) count.old }
    ensures buffer { out.new ≡ buffer_after (decoded_body compression channels frames body.now) out.old }
{
    let output = decode_body(body, compression, channels, frames as usize, out);
    hand_length(output, count)
}

#[unsafe(no_mangle)]
pub extern "C" fn svx_fibonacci_decode_channel(body: &[u8], out: &mut [i8], count: &mut u64) -> u32
    ensures result { result ≡ refusal_number (answer (fib_channel body.now) (length out.old)) }
    ensures count { count.new ≡ handed (answer (fib_channel body.now) (length out.old)) count.old }
    ensures buffer { out.new ≡ buffer_after (fib_channel body.now) out.old }
{
    let output = fibonacci_decode_channel(body, out);
    hand_length(output, count)
}

#[unsafe(no_mangle)]
pub extern "C" fn svx_fibonacci_encode_channel(
    samples: &[i8],
    out: &mut [u8],
    count: &mut u64,
) -> u32
    ensures result { result ≡ refusal_number (answer (Ok (fib_bytes samples.now)) (length out.old)) }
    ensures count { count.new ≡ handed (answer (Ok (fib_bytes samples.now)) (length out.old)) count.old }
    ensures buffer { out.new ≡ buffer_after (Ok (fib_bytes samples.now)) out.old }
{
    let output = fibonacci_encode_channel(samples, out);
    hand_length(output, count)
}
