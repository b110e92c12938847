// The members of a part of the sheet: points of its envelopes, or segments of its sequence.
ghost use Rattle.std.specs.List.{position};
ghost use Rattle.std.specs.Prelude.{◌≡◌, ◌==◌, ◌≤◌, length};
ghost use Rattle.sheet_layout.specs.Members.{next_member};

// Where the first byte of a kind lies.
fn first_of(bytes: &[u8], kind: u8) -> Option<usize>
    ensures { result ≡ position (λ b. b == kind) bytes.now }
{
    bytes.iter().position(|b| *b == kind)
}

// From a place of a part on, where the next member of a kind begins, if one follows: bytes that open groups are passed over.
pub fn next_member(part: &[u8], at: usize, member: u8) -> Option<usize>
    requires { at ≤ length part.now }
    ensures { result ≡ next_member member at part.now }
{
    let passed = first_of(&part[at..], member)?;
    Some(at + passed)
}
