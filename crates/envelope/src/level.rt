// Products and quotients that cut toward zero, and a level on its way to another.
ghost use Rattle.std.specs.Prelude.{◌≡◌, ◌*◌, ◌^◌, ◌≤◌, ◌<◌, nat_abs};
ghost use Rattle.envelope.specs.Level.{scaled_by, on_the_way};

// x × n / d, cut toward zero, where the product fits.
fn scaled_wide(x: i64, n: u32, d: u32) -> i64
    requires { (0 < d) × (nat_abs x * n < 2 ^ 63) }
    ensures { result ≡ scaled_by x n d }
{
    x * n as i64 / d as i64
}

// x × n / d, cut toward zero, where n is at most d: no larger than x, and x itself where n is d, as at full level, volume or share.
pub fn scaled(x: i32, n: u32, d: u32) -> i32
    requires { (n ≤ d) × (0 < d) }
    ensures { result ≡ scaled_by x n d }
{
    if n == d {
        return x;
    }
    scaled_wide(x as i64, n, d) as i32
}

// The level `into` milliseconds after `level`, on a way to `dest` that takes d.
pub fn on_the_way(level: i32, dest: i32, into: u16, d: u16) -> i32
    requires { into < d }
    ensures { result ≡ on_the_way level dest into d }
{
    let from = level as i64;
    let rise = dest as i64 - from;
    (from + scaled_wide(rise, into as u32, d as u32)) as i32
}
