// Numbers as they are printed. By hand, and not by `Display`: every byte is promised, no memory is allocated, and each digit counts
// in how fast a line is answered.
#![tactic(auto)]

ghost use Rattle.std.specs.Prelude.{◌≡◌, [], ◌∷◌, ◌++◌, ◌+◌, ◌%◌, ◌<◌, ◌≤◌, nat_abs, length, drop};
ghost use Rattle.whole.specs.Digits.{digits};
ghost use Rattle.decimal.specs.Decimal.{sign, unpadded, decimal, printed_number, billionths, nine_places};

use whole::last_digit;

// A number and the byte that follows it, at the start of what is lent.
pub fn number_and(n: i32, next: u8, line: &mut [u8]) -> usize
    requires { 12 ≤ length line.old }
    ensures value { result ≡ length (printed_number n) + 1 }
    ensures line_after { line.new ≡ (printed_number n ++ next ∷ []) ++ drop result line.old }
{
    let at = signed(n, line);
    line[at] = next;
    at + 1
}

// Decimal degrees: a number of billionths of a degree, below 1,000 degrees.
#[derive(Clone, Copy)]
pub struct Degrees {
    pub billionths: i64,
    pub ghost few: { nat_abs billionths < 1000000000000 },
}

// Decimal degrees with nine places, at the start of what is lent: `-0.500000000`.
pub fn nine_places(degrees: Degrees, line: &mut [u8]) -> usize
    requires { 14 ≤ length line.old }
    ensures value { result ≡ length (nine_places degrees.billionths) }
    ensures line_after { line.new ≡ nine_places degrees.billionths ++ drop result line.old }
{
    let n = degrees.billionths;
    let sign = minus(n < 0, line);
    sign + billionths(n.unsigned_abs(), &mut line[sign..])
}

const BILLION: u64 = 1_000_000_000;

// The whole part, and ten bytes: the point and nine places.
fn billionths(n: u64, line: &mut [u8]) -> usize
    requires { (n < 1000000000000) × (13 ≤ length line.old) }
    ensures value { result ≡ length (billionths n) }
    ensures line_after { line.new ≡ billionths n ++ drop result line.old }
{
    let point = up_to_three(n / BILLION, line);
    let mut places = in_ten(n % BILLION);
    places[0] = b'.';
    point + kinds::copy(&places, &mut line[point..])
}

// The digits of a number below 1,000, without leading zeros, at the start of what is lent. By `digits`, which writes them too, a
// waypoint takes 38 % more instructions.
#[tactic(auto, using(crate::proofs::Nine::one_digit, crate::proofs::Nine::two_digits, crate::proofs::Nine::three_digits, crate::proofs::Nine::one_set, crate::proofs::Nine::two_set, crate::proofs::Nine::three_set))]
fn up_to_three(n: u64, line: &mut [u8]) -> usize
    requires { (n < 1000) × (3 ≤ length line.old) }
    ensures value { result ≡ length (decimal n) }
    ensures line_after { line.new ≡ decimal n ++ drop result line.old }
{
    if 100 <= n {
        line[0] = last_digit(n / 100);
        line[1] = last_digit(n / 10);
        line[2] = last_digit(n);
        return 3;
    }
    if 10 <= n {
        line[0] = last_digit(n / 10);
        line[1] = last_digit(n);
        return 2;
    }
    line[0] = last_digit(n);
    1
}

// Writes a number to the start of a line, which has room for 11 bytes, and says how many.
fn signed(n: i32, line: &mut [u8]) -> usize
    requires { 11 ≤ length line.old }
    ensures value { result ≡ length (printed_number n) }
    ensures line_after { line.new ≡ printed_number n ++ drop result line.old }
{
    let first = minus(n < 0, line);
    first + digits(n.unsigned_abs(), &mut line[first..])
}

// A minus sign, where one is to stand, at the start of what is lent.
fn minus(below: bool, line: &mut [u8]) -> usize
    requires { 1 ≤ length line.old }
    ensures value { result ≡ length (sign below) }
    ensures line_after { line.new ≡ sign below ++ drop result line.old }
{
    if below {
        line[0] = b'-';
        return 1;
    }
    0
}

// The digits of a number, without leading zeros, at the start of what is lent.
fn digits(n: u32, line: &mut [u8]) -> usize
    requires { 10 ≤ length line.old }
    ensures value { result ≡ length (decimal n) }
    ensures line_after { line.new ≡ decimal n ++ drop result line.old }
{
    let ten = in_ten(u64::from(n));
    let first = first_digit(&ten);
    kinds::copy(&ten[first..], line)
}

// A number in ten digits.
#[tactic(auto, unfolding(whole::specs::Digits::digits, whole::specs::Places::in_places))]
fn in_ten(n: u64) -> [u8; 10]
    ensures { result ≡ digits 10 n }
{
    [
        last_digit(n / 1_000_000_000),
        last_digit(n / 100_000_000),
        last_digit(n / 10_000_000),
        last_digit(n / 1_000_000),
        last_digit(n / 100_000),
        last_digit(n / 10_000),
        last_digit(n / 1_000),
        last_digit(n / 100),
        last_digit(n / 10),
        last_digit(n),
    ]
}

// Where the first digit stands that is written: the last one at the latest.
fn first_digit(digits: &[u8; 10]) -> usize
    ensures upper_bound { result ≤ length digits.now }
    ensures digits_value { drop result digits.now ≡ unpadded digits.now }
{
    digits[..9].iter().position(|d| *d != b'0').unwrap_or(9)
}
