// Draws: numbers of 32 bits, each made from the one before.
ghost use Rattle.std.specs.Prelude.{◌≡◌, ◌≤◌, length};
ghost use Rattle.laws.specs.Buffer.{written};
ghost use Rattle.drawn.specs.Draw.{next_draw, nth_draw};
ghost use Rattle.drawn.specs.DrawnVoice.{drawn_samples};

use field::sample_of_byte;

// The draw that follows x.
pub(crate) fn draw(x: u32) -> u32
    ensures { result ≡ next_draw x }
{
    let a = x ^ (x << 13);
    let b = a ^ (a >> 17);
    b ^ (b << 5)
}

// n samples, each the lowest byte of a draw, at the front of a buffer that has room for them; the last draw.
pub(crate) fn put_samples(number: u32, n: usize, out: &mut [i8]) -> u32
    requires { n ≤ length out.old }
    ensures result { result ≡ nth_draw n number }
    ensures buffer { out.new ≡ written (drawn_samples n number) out.old }
{
    let mut x = number;
    for i in 0..n {
        x = draw(x);
        out[i] = sample_of_byte((x % 256) as u8);
    }
    x
}
