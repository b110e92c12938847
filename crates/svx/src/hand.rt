// Answers handed to C: the number of the refusal, and values into the places that a caller lent for them.
ghost use Rattle.std.specs.Prelude.{◌≡◌};
ghost use Rattle.svx.specs.Answers.{refusal_number, handed, handed_lengths};

use refusal::Refusal;
use voice::Lengths;

// The refusal's number, or 0.
pub(crate) fn refusal_number<T: Copy>(answer: Result<T, Refusal>) -> u32
    ensures { result ≡ refusal_number answer }
{
    match answer {
        Ok(_) => 0,
        Err(refusal) => refusal.number() as u32,
    }
}

// The place after a block into its place; 0 or the refusal.
pub(crate) fn hand_place(mixed: Result<u32, Refusal>, after: &mut u32) -> u32
    ensures result { result ≡ refusal_number mixed }
    ensures after { after.new ≡ handed mixed after.old }
{
    if let Ok(place) = mixed {
        *after = place;
    }
    refusal_number(mixed)
}

// A length into its place; 0 or the refusal.
pub(crate) fn hand_length(output: Result<usize, Refusal>, count: &mut u64) -> u32
    ensures result { result ≡ refusal_number output }
    ensures count { count.new ≡ handed output count.old }
{
    if let Ok(n) = output {
        *count = n as u64;
    }
    refusal_number(output)
}

// Sheet, left, right into the three places; 0 or the refusal.
pub(crate) fn hand_lengths(parsed: Result<Lengths, Refusal>, lengths: &mut [u64; 3]) -> u32
    ensures result { result ≡ refusal_number parsed }
    ensures lengths { lengths.new ≡ handed_lengths parsed lengths.old }
{
    if let Ok(l) = parsed {
        *lengths = [l.sheet as u64, l.left as u64, l.right as u64];
    }
    refusal_number(parsed)
}
