// One line in, one line out: a point as text, and its shift or geoid height as it is printed, or its waypoint.
#![tactic(auto)]

ghost use Rattle.std.specs.Prelude.{◌≡◌, ◌++◌, ◌≤◌, length, drop};
ghost use Rattle.kinds.specs.Answer.{number_of, counted, lent};
ghost use Rattle.kinds.specs.Cases.{written};
ghost use Rattle.position.specs.Text.{longitude, read};
ghost use Rattle.datum.specs.Cases.{shift_says};
ghost use Rattle.line.specs.Line.{answer_line, line_of, line_in};
ghost use Rattle.line.specs.Inside.{place_says, place_answer, point_said, first_refusal, text_of};
ghost use Rattle.line.specs.declared.Form.TheVariants.{Numbers, Waypoints};

use datum::{Given, Point, Shifts};
use decimal::number_and;
use kinds::{LocalLatitude, LocalLongitude, Refusal, put};
use waypoint::ELEMENT;

// Answers the line whose bytes before the line feed are text: `1 350000.000N 0330000.000E` gives `-384288 -110294 24430` and a
// line feed, at the start of out, and how many bytes these are. Refused, in this order: 1 another length than 26, 2 a byte that
// is not of its kind, 3 a coordinate out of range, 4 no such code, 6 outside its datum's area, 7 out is shorter than these bytes.
pub fn line(text: &[u8], out: &mut [u8]) -> Result<usize, Refusal>
    ensures result_value { written result ≡ counted (line_of text.now (length out.old)) }
    ensures out_after { out.new ≡ lent (line_of text.now (length out.old)) out.old }
{
    line_in(Form::Numbers, text, out)
}

// How a line is answered: with numbers, as above, or with the waypoint of its point, for the drawing office.
#[derive(Clone, Copy)]
pub enum Form {
    Numbers,
    Waypoints,
}

// Answers a line in a form. `1 350000.000N 0330000.000E` gives the waypoint `<wpt lat="34.998932533" lon="32.999693628"/>` and a
// line feed; refused as above, but with 5 of a geoid datum, between 4 and 6.
#[tactic(auto, using(crate::proofs::Calls::text_by))]
pub fn line_in(form: Form, text: &[u8], out: &mut [u8]) -> Result<usize, Refusal>
    ensures result_value { written result ≡ counted (line_in form text.now (length out.old)) }
    ensures out_after { out.new ≡ lent (line_in form text.now (length out.old)) out.old }
{
    let place = read(text)?;
    // made in an array, since memory is fixed, with no heap
    let mut line = [0; WAYPOINT];
    let end = laid(form, place, &mut line)?;
    put(&line[..end], out)
}

// bytes of a line in, before its line feed
pub const LINE: usize = 26;

// the most bytes of a line out, for who lends a buffer: three numbers of 11, each with the space or the line feed that follows it
pub const ANSWER: usize = 36;

// or a waypoint and its line feed
pub const WAYPOINT: usize = ELEMENT + 1;

// A point as a line says it.
#[derive(Clone, Copy)]
struct Place {
    code: i64,
    latitude: LocalLatitude,
    longitude: LocalLongitude,
}

impl Place {
    // As raw numbers.
    fn point(self) -> Point
        ensures code_value { result.code ≡ self.code }
        ensures latitude_value { result.latitude ≡ self.latitude.0 }
        ensures longitude_value { result.longitude ≡ self.longitude.0 }
    {
        Point {
            code: self.code,
            latitude: i64::from(self.latitude.ms()),
            longitude: i64::from(self.longitude.ms()),
        }
    }
}

// Reads a line, whatever its code and its place.
#[tactic(auto, using(crate::proofs::Reading::wrong_length))]
fn read(text: &[u8]) -> Result<Place, Refusal>
    ensures { place_answer result ≡ point_said text.now }
{
    if text.len() != LINE {
        return Err(Refusal::Length);
    }
    let code = text[0];
    let is_digit = code.is_ascii_digit();
    if !(is_digit & (text[1] == b' ') & (text[13] == b' ')) {
        return Err(Refusal::Kind);
    }
    match position::read_latitude(&text[2..13]) {
        Ok(latitude) => {
            let longitude = position::read_longitude(&text[14..26])?;
            Ok(Place {
                code: i64::from(code - b'0'),
                latitude,
                longitude,
            })
        }
        Err(why) => Err(first_refusal(why, &text[14..26])),
    }
}

// Of a line whose latitude is refused, by the text of its longitude: the lower number of the two, since a wrong byte comes before
// what is out of range. After a wrong byte the text is not read. It is a slice, as the reader takes it.
#[tactic(auto, using(crate::proofs::Reading::kind_first))]
fn first_refusal(latitude: Refusal, text: &[u8]) -> Refusal
    requires { length text.now ≡ 12 }
    ensures { number_of result ≡ first_refusal (number_of latitude) (read longitude text.now) }
{
    if latitude == Refusal::Kind {
        return latitude;
    }
    match position::read_longitude(text) {
        Ok(_) => latitude,
        Err(why) => latitude.min(why),
    }
}

// The answer to a place that was read, at the start of a line, which has room for either form; and how many bytes it has.
fn laid(form: Form, place: Place, line: &mut [u8; WAYPOINT]) -> Result<usize, Refusal>
    ensures result_value { written result ≡ counted (text_of form (place_says place)) }
    ensures line_after { line.new ≡ lent (text_of form (place_says place)) line.old }
{
    // a form is data, which is chosen when the program runs and which `Reading` of `stream` carries
    match form {
        Form::Numbers => numbers_line(place, line),
        Form::Waypoints => waypoint_line(place, line),
    }
}

fn waypoint_line(place: Place, line: &mut [u8; WAYPOINT]) -> Result<usize, Refusal>
    ensures result_value { written result ≡ counted (text_of Waypoints (place_says place)) }
    ensures line_after { line.new ≡ lent (text_of Waypoints (place_says place)) line.old }
{
    let point = place.point();
    let position = point.wgs84()?;
    let end = waypoint::element(position, line);
    line[end] = b'\n';
    Ok(end + 1)
}

fn numbers_line(place: Place, line: &mut [u8; WAYPOINT]) -> Result<usize, Refusal>
    ensures result_value { written result ≡ counted (text_of Numbers (place_says place)) }
    ensures line_after { line.new ≡ lent (text_of Numbers (place_says place)) line.old }
{
    let point = place.point();
    let given = point.answer()?;
    match given {
        Given::Shift(shifts) => {
            let end = shift_line(shifts, line);
            prove!(end <= ANSWER);
            Ok(end)
        }
        Given::Geoid(height) => Ok(number_and(height.mm(), b'\n', line)),
    }
}

fn shift_line(shifts: Shifts, line: &mut [u8]) -> usize
    requires { 36 ≤ length line.old }
    ensures value { result ≡ length (answer_line (shift_says shifts)) }
    ensures line_after { line.new ≡ answer_line (shift_says shifts) ++ drop result line.old }
{
    let second = number_and(shifts.latitude.units(), b' ', line);
    let third = second + number_and(shifts.longitude.units(), b' ', &mut line[second..]);
    third + number_and(shifts.height.mm(), b'\n', &mut line[third..])
}
