// Whole numbers: division rounded to the nearest, the product of two scaled numbers, a sign, a digit, and the laws that the
// toolchain's library lacks. No geodesy.
#![tactic(auto)]

ghost use Rattle.std.specs.Prelude.{◌≡◌, ◌+◌, ◌*◌, ◌/◌, ◌%◌, ◌<◌, ◌≤◌, nat_abs};
ghost use Rattle.whole.specs.Round.{round_half_up, round_div, scale};
ghost use Rattle.whole.specs.Sign.{with_sign};

// A number in hundred-millionths, as u and v are. K and the powers of u and v, which are bare numbers, have the same scale.
#[derive(Clone, Copy)]
pub struct Parts(pub i64);

impl Parts {
    // what 1 is
    pub const SCALE: i64 = 100_000_000;

    // the same as a divisor
    pub const DIVISOR: u64 = Parts::SCALE as u64;
}

// n / d to the nearest whole number, halves away from zero: by the size of n, to which half of d can always be added. Where d
// is a literal no division instruction is left.
pub fn rounded(n: i64, d: u64) -> i64
    requires { (2 ≤ d) × (d ≤ 4611686018427387904) }
    ensures { result ≡ round_div n d }
{
    with_sign(n < 0, nearest(size(n), d) as i64)
}

// How far n is from zero, of the least i64 too, whose negative is no i64.
fn size(n: i64) -> u64
    ensures { result ≡ nat_abs n }
{
    n.unsigned_abs()
}

// The same of sizes: an addition, and a division that is a multiplication and a shift where d is a literal.
pub fn nearest(n: u64, d: u64) -> u64
    requires { (0 < d) × (n + d / 2 < 18446744073709551616) }
    ensures { result ≡ round_half_up n d }
{
    (n + d / 2) / d
}

// x, or -x where its sign is below zero.
pub fn with_sign(below: bool, x: i64) -> i64
    requires { nat_abs x < 9223372036854775808 }
    ensures { result ≡ with_sign below x }
{
    if below { -x } else { x }
}

// p * u / Parts::SCALE to the nearest, of sizes: u is at most 10, and p so small that a u64 holds the answer, though it may not
// hold p * u. p is split by the scale, and what is left of it times u is small, so that half of the scale can be added.
pub fn scaled(p: u64, u: u64) -> u64
    requires { (p ≤ 1000000000000000000) × (u ≤ 1000000000) }
    ensures { result ≡ round_half_up (p * u) scale }
{
    let q = p / Parts::DIVISOR;
    let r = p - q * Parts::DIVISOR;
    q * u + nearest(r * u, Parts::DIVISOR)
}

// The last digit of n, as a byte.
pub fn last_digit(n: u64) -> u8
    ensures { result ≡ 48 + n % 10 }
{
    (n % 10) as u8 + b'0'
}
