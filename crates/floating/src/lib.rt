// The answers of `datum` as 64-bit floats, for the map program: the whole answer made a float without loss, divided once.
#![tactic(auto)]

ghost use Rattle.std.specs.Prelude.{◌≡◌};
ghost use Rattle.kinds.specs.Answer.{refusal_of};
ghost use Rattle.datum.specs.Point.{first_of, second_of, third_of, values_of};
ghost use Rattle.datum.specs.Cases.{shift_says};
ghost use Rattle.floating.specs.Floats.{seconds, metres, in_floats, floating_of, float_zero};
ghost use Rattle.floating.specs.Cases.{floats_say, float_answer};

use datum::{Given, Point, Shifts};
use kinds::{AngleShift, Height};

// The shifts of a point: of latitude and longitude in seconds, of height in metres.
#[derive(Clone, Copy)]
pub struct ShiftFloats {
    pub latitude: f64,
    pub longitude: f64,
    pub height: f64,
}

// Whole shifts as floats, in seconds and metres.
impl From<Shifts> for ShiftFloats {
    ghost from_gives = { λ shifts floats. floats_say floats ≡ in_floats (shift_says shifts) };

    fn from(shifts: Shifts) -> ShiftFloats {
        ShiftFloats {
            latitude: seconds(shifts.latitude),
            longitude: seconds(shifts.longitude),
            height: metres(shifts.height),
        }
    }
}

// The answer of a datum of either family: its shifts, its geoid height in metres, or the number of the refusal. No `Result`:
// document 01 names this form.
#[derive(Clone, Copy)]
pub enum Answer {
    Shift(ShiftFloats),
    Geoid(f64),
    Refused(u8),
}

// The shifts of the point or its geoid height, whichever its datum has. Refused, in this order, with 4 where there is no such
// code, 3 where a coordinate is out of range, 6 outside the datum's area; never with 5.
// The centre of code 1, at 126,000,000 and 118,800,000 ms, gives the floats nearest to -3.84288, -1.10294 and 24.43.
// Put into each of the four below: by a call of it `refusal` works the equations, whose answer it drops, at 12 times the
// instructions, and a refused call of one float takes 2 to 3 times as many.
#[inline(always)]
pub fn floating(point: Point) -> Answer
    ensures { float_answer result ≡ floating_of point.code point.latitude point.longitude }
{
    match point.answer() {
        Ok(Given::Shift(shifts)) => Answer::Shift(ShiftFloats::from(shifts)),
        Ok(Given::Geoid(height)) => Answer::Geoid(metres(height)),
        Err(why) => Answer::Refused(why.number()),
    }
}

// dLat in seconds, or N in metres; 0 where the point is refused. Three functions, and not one of a place: C has a name for each.
pub fn first(point: Point) -> f64
    ensures { result ≡ first_of float_zero (floating_of point.code point.latitude point.longitude) }
{
    floating(point).values()[0]
}

// dLon in seconds; 0 of a geoid datum, and where the point is refused.
pub fn second(point: Point) -> f64
    ensures { result ≡ second_of float_zero (floating_of point.code point.latitude point.longitude) }
{
    floating(point).values()[1]
}

// dH in metres; 0 of a geoid datum, and where the point is refused.
pub fn third(point: Point) -> f64
    ensures { result ≡ third_of float_zero (floating_of point.code point.latitude point.longitude) }
{
    floating(point).values()[2]
}

// The number of the point's refusal, or 0 where it is answered: C takes this number.
pub fn refusal(point: Point) -> u8
    ensures { result ≡ refusal_of (floating_of point.code point.latitude point.longitude) }
{
    match floating(point) {
        Answer::Shift(_) => 0,
        Answer::Geoid(_) => 0,
        Answer::Refused(number) => number,
    }
}

impl Answer {
    // dLat, dLon and dH; or N and two zeros; or three zeros where the point is refused.
    #[tactic(auto, using(crate::proofs::Calls::no_value))]
    fn values(self) -> [f64; 3]
        ensures { result ≡ values_of float_zero (float_answer self) }
    {
        match self {
            Answer::Shift(shift) => [shift.latitude, shift.longitude, shift.height],
            Answer::Geoid(height) => [height, 0.0, 0.0],
            Answer::Refused(_) => [0.0, 0.0, 0.0],
        }
    }
}

// A cast and one division, as document 01 names it. Beside `metres`, since a divisor that is handed over would let a height be
// read in seconds, and a trait of the two kinds is longer than two functions of one line.
#[tactic(auto, using(crate::proofs::Calls::once_divided, crate::proofs::Calls::per_second_lem))]
fn seconds(shift: AngleShift) -> f64
    ensures { result ≡ seconds shift.0 }
{
    (shift.units() as f64) / AngleShift::PER_SECOND
}

#[tactic(auto, using(crate::proofs::Calls::once_divided, crate::proofs::Calls::per_metre_lem))]
fn metres(height: Height) -> f64
    ensures { result ≡ metres height.0 }
{
    (height.mm() as f64) / Height::PER_METRE
}
