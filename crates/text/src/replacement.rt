// U+FFFD in the place of ill-formed bytes.
ghost use Rattle.std.specs.Prelude.{◌≡◌};
ghost use Rattle.text_utf8.specs.Step.{subsequence};
ghost use Rattle.text_utf8.specs.Utf8.{bytes, replaced};

// U+FFFD, the replacement character.
const REPLACEMENT: [u8; 3] = [0xEF, 0xBF, 0xBD];

// A part as its text has it.
pub fn replaced(part: &[u8], well_formed: bool) -> &[u8]
    ensures { result.now ≡ bytes (replaced (subsequence well_formed part.now)) }
{
    if well_formed { part } else { &REPLACEMENT }
}
