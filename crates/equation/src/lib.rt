// The working rule: the powers of u and of v, and the sum of one equation over its table of terms. It knows no datum.
#![tactic(auto)]

ghost use Rattle.std.specs.Prelude.{◌≡◌, ◌<◌, ◌≤◌, ◌^◌, nat_abs};
ghost use Rattle.whole.specs.Round.{scale};
ghost use Rattle.equation.specs.Powers.{powers_of};
ghost use Rattle.equation.specs.Equation.{sum};
ghost use Rattle.equation.specs.Room.{Room, RoomFrom};
ghost use Rattle.equation.specs.Inside.{terms, size_powers, class_sums, spread, joined};

use whole::Parts;

// A term of an equation: its whole coefficient, its power of U and its power of V.
#[derive(Clone, Copy)]
pub struct Term(pub i64, pub u8, pub u8);

// u and v of a point, and the ten powers of their sizes, which are worked once and passed together to each of its equations.
#[derive(Clone, Copy)]
pub struct Powers {
    pub u: Parts,
    pub v: Parts,
    pub of_u: [i64; 10],
    pub of_v: [i64; 10],
    pub ghost are: { (of_u ≡ size_powers u.0) × (of_v ≡ size_powers v.0) },
}

impl Powers {
    pub fn of(u: Parts, v: Parts) -> Powers
        requires { (nat_abs u.0 ≤ 255000000) × (nat_abs v.0 ≤ 255000000) }
        ensures { (result.u ≡ u) × (result.v ≡ v) }
    {
        let of_u = size_powers(u);
        let of_v = size_powers(v);
        Powers { u, v, of_u, of_v }
    }
}

// The powers of the size of u from the zeroth to the ninth, in hundred-millionths, each the one before times u, rounded. Those of
// u itself have the same sizes: `sum` puts the signs on.
pub fn size_powers(u: Parts) -> [i64; 10]
    requires { nat_abs u.0 ≤ 255000000 }
    ensures { result ≡ size_powers u.0 }
{
    let size = u.0.unsigned_abs();
    let mut out = [Parts::SCALE; 10];
    out[1] = size as i64;
    let mut power = size;
    // by places: each power is of the one before
    for k in 2..9 {
        power = whole::nearest(power * size, Parts::DIVISOR);
        out[k] = power as i64;
    }
    // of the largest v of code 6 what is divided here would pass 64 bits
    out[9] = whole::scaled(power, size) as i64;
    out
}

// The sum of each coefficient times its product of powers, which is exact. Who calls divides it, by a literal, and rounds once.
// It is worked by sizes, since a rounding of a number that is not negative is the shorter one; and a term's sign is that of its
// class. The terms are walked nine at a time: the compiler makes straight code of a loop that short, in which all that a table
// says is known. Table and powers are two parameters, since a point has one set of powers and up to three tables.
pub fn sum(table: &[Term], powers: Powers) -> i64
    requires { Room (terms table.now) (size_powers powers.u.0) (size_powers powers.v.0) }
    ensures { result ≡ sum scale (terms table.now) (powers_of scale powers.u.0 10) (powers_of scale powers.v.0 10) }
{
    let mut sums = [0; 4];
    for nine in table.chunks(9) {
        // by a local: the toolchain does not cover a call whose result goes straight into an array
        let more = added(sums, nine, powers);
        sums = more;
    }
    joined(sums, powers.u.0 < 0, powers.v.0 < 0)
}

// The sums of the four classes, with the terms of a part of the table more. A term is of class 0 where both its powers are even,
// of 1 where V's alone is odd, of 2 where U's alone is, of 3 where both are.
fn added(before: [i64; 4], part: &[Term], powers: Powers) -> [i64; 4]
    requires { RoomFrom before (terms part.now) powers.of_u powers.of_v }
    ensures { result ≡ class_sums before (terms part.now) powers.of_u powers.of_v }
{
    let mut sums = before;
    for term in part {
        let i = usize::from(term.1);
        let j = usize::from(term.2);
        let class = i % 2 * 2 + j % 2;
        let product = whole::nearest(
            powers.of_u[i] as u64 * powers.of_v[j] as u64,
            Parts::DIVISOR,
        );
        sums[class] += term.0 * product as i64;
    }
    sums
}

// The sum of all classes, each with its sign, by whether u and v are below zero: a class with an odd power of one that is has the
// other sign.
fn joined(sums: [i64; 4], u: bool, v: bool) -> i64
    requires { spread sums < 2 ^ 63 }
    ensures { result ≡ joined u v sums }
{
    sums[0]
        + whole::with_sign(v, sums[1])
        + whole::with_sign(u, sums[2])
        + whole::with_sign(u != v, sums[3])
}
