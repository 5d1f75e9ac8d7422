// The drawing office's waypoint: a point of codes 1 to 4 on WGS 84, in decimal degrees, as an element of a GPX 1.1 file.
#![tactic(auto)]

ghost use Rattle.std.specs.Prelude.{◌≡◌, ◌++◌, ◌+◌, ◌<◌, ◌≤◌, nat_abs, length, drop};
ghost use Rattle.kinds.specs.Answer.{placed, counted, lent};
ghost use Rattle.kinds.specs.Cases.{written};
ghost use Rattle.decimal.specs.Decimal.{nine_places};
ghost use Rattle.waypoint.specs.Waypoint.{degrees, east_or_west, element, waypoint_of};
ghost use Rattle.waypoint.specs.Inside.{Printable};

use datum::Point;
use decimal::{Degrees, nine_places};
use kinds::{Refusal, Wgs84Latitude, Wgs84Longitude, Wgs84Position, put};

// the most bytes of an element
pub const ELEMENT: usize = 47;

// billionths of a degree
const HALF_TURN: i64 = 180_000_000_000;

// Writes the waypoint of a point of codes 1 to 4 to the start of out: nothing but the element, with no line feed. Refused, in this
// order, with 4 where there is no such code, 5 of a geoid datum, 3 where a coordinate is out of range, 6 outside the datum's area,
// 7 where out is shorter than the element.
// The centre of code 1, at 126,000,000 and 118,800,000 ms, gives `<wpt lat="34.998932533" lon="32.999693628"/>`.
pub fn waypoint(point: Point, out: &mut [u8]) -> Result<usize, Refusal>
    ensures result_value { written result ≡ counted (waypoint_of point.code point.latitude point.longitude (length out.old)) }
    ensures out_after { out.new ≡ lent (waypoint_of point.code point.latitude point.longitude (length out.old)) out.old }
{
    let position = point.wgs84()?;
    put_element(position, out)
}

// Made in an array, since memory is fixed, with no heap. With `line_in` of `line` it shares three lines: one function for both
// would take a closure and a size.
fn put_element(position: Wgs84Position, out: &mut [u8]) -> Result<usize, Refusal>
    requires { Printable position.latitude.0 position.longitude.0 }
    ensures result_value { written result ≡ counted (placed (element position.latitude.0 position.longitude.0) (length out.old)) }
    ensures out_after { out.new ≡ lent (placed (element position.latitude.0 position.longitude.0) (length out.old)) out.old }
{
    let mut text = [0; ELEMENT];
    let end = element(position, &mut text);
    put(&text[..end], out)
}

// The element of a position, at the start of what is lent. By hand, as all that is printed (`decimal`).
pub fn element(position: Wgs84Position, line: &mut [u8]) -> usize
    requires { Printable position.latitude.0 position.longitude.0 × (47 ≤ length line.old) }
    ensures value { result ≡ length (element position.latitude.0 position.longitude.0) }
    ensures line_after { line.new ≡ element position.latitude.0 position.longitude.0 ++ drop result line.old }
{
    let middle = labelled(b"<wpt lat=\"", north(position.latitude), line);
    let end = middle + labelled(b"\" lon=\"", east(position.longitude), &mut line[middle..]);
    end + kinds::copy(b"\"/>", &mut line[end..])
}

// A label and the decimal degrees that it stands before. A call of it would take a waypoint 51 instructions more.
#[inline(always)]
fn labelled(label: &[u8], number: Degrees, line: &mut [u8]) -> usize
    requires { length label.now + 14 ≤ length line.old }
    ensures value { result ≡ length (label.now ++ nine_places number.billionths) }
    ensures line_after { line.new ≡ (label.now ++ nine_places number.billionths) ++ drop result line.old }
{
    let start = kinds::copy(label, line);
    start + nine_places(number, &mut line[start..])
}

// A latitude in decimal degrees.
#[tactic(auto, using(crate::proofs::Degrees::few_digits))]
fn north(latitude: Wgs84Latitude) -> Degrees
    requires { nat_abs latitude.0 < 360000000000 }
    ensures { result.billionths ≡ degrees latitude.0 }
{
    Degrees {
        billionths: in_billionths(latitude.units()),
    }
}

// A longitude likewise, from -180° up to but not 180°.
fn east(longitude: Wgs84Longitude) -> Degrees
    requires { nat_abs longitude.0 < 360000000000 }
    ensures { result.billionths ≡ east_or_west (degrees longitude.0) }
{
    let rounded = in_billionths(longitude.units());
    let is_west = HALF_TURN <= rounded;
    if is_west {
        return Degrees {
            billionths: rounded - 2 * HALF_TURN,
        };
    }
    Degrees {
        billionths: rounded,
    }
}

// Billionths of a degree, of which 25 are 9 units. The limit stands here and at the two coordinates: these are tuple structs, which
// can have no ghost field.
fn in_billionths(units: i64) -> i64
    requires { nat_abs units < 360000000000 }
    ensures { result ≡ degrees units }
{
    whole::rounded(25 * units, 9)
}
