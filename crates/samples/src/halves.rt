// The two channels of a BODY, as parts of it.
ghost use Rattle.std.specs.Prelude.{◌≡◌};
ghost use Rattle.samples.specs.Halves.{left_half, right_half, right_at};

// The left channel's bytes.
pub fn left_half<'a>(body: &'a [u8]) -> &'a [u8]
    ensures contents { result.now ≡ left_half body.now }
    ensures place { result.ref_ptr ≡ body.entry.ref_ptr }
{
    let half = body.len() / 2;
    &body[..half]
}

// The right channel's bytes. An odd last byte is in neither half.
pub fn right_half<'a>(body: &'a [u8]) -> &'a [u8]
    ensures contents { result.now ≡ right_half body.now }
    ensures place { result.ref_ptr ≡ right_at body.entry.ref_ptr body.now }
{
    let half = body.len() / 2;
    let end = half + half;
    &body[half..end]
}
