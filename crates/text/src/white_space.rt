// Unicode White_Space.
ghost use Rattle.std.specs.Prelude.{◌≡◌};
ghost use Rattle.text.specs.Text.{is_white};
ghost use Rattle.text.specs.WhiteSpace.{code_point, is_white_space};
ghost use Rattle.text_utf8.specs.Step.{subsequence};

// The code point that the bytes of a well-formed sequence stand for.
fn code_point(s: &[u8]) -> u32
    ensures { result ≡ code_point s.now }
{
    match *s {
        [a] => a as u32,
        [a, b] => (a % 32) as u32 * 64 + (b % 64) as u32,
        [a, b, c] => ((a % 16) as u32 * 64 + (b % 64) as u32) * 64 + (c % 64) as u32,
        [a, b, c, d] => {
            (((a % 8) as u32 * 64 + (b % 64) as u32) * 64 + (c % 64) as u32) * 64 + (d % 64) as u32
        }
        _ => 0,
    }
}

// The code point has the property White_Space.
#[tactic(auto, unfolding(crate::specs::WhiteSpace::is_white_space))]
fn is_white_space(n: u32) -> bool
    ensures { result ≡ is_white_space n }
{
    matches!(
        n,
        0x0009..=0x000D
            | 0x0020
            | 0x0085
            | 0x00A0
            | 0x1680
            | 0x2000..=0x200A
            | 0x2028..=0x2029
            | 0x202F
            | 0x205F
            | 0x3000
    )
}

// A part is White_Space; an ill-formed one is not.
pub fn is_white_part(part: &[u8], well_formed: bool) -> bool
    ensures { result ≡ is_white (subsequence well_formed part.now) }
{
    well_formed && is_white_space(code_point(part))
}
