// Document 000: u, v and the tables of six datums, a file each, and their areas; what each gives for a position of its area.
#![tactic(auto)]

mod alaska;
mod cyprus;
mod kandawala;
mod minna;
mod nahrwan;
mod qatar;

ghost use Rattle.std.specs.Prelude.{◌≡◌, true, ◌≤◌, nat_abs};
ghost use Rattle.whole.specs.Round.{scale};
ghost use Rattle.equation.specs.Inside.{terms};
ghost use Rattle.tables.specs.Page.{geoid};
ghost use Rattle.tables.specs.Rule.{counted_from, enclosed, in_box, worked};
ghost use Rattle.tables.specs.Inside.{datum_page, frame_of, on_axis, shift_by, geoid_by, equation_at, evaluated_at, shift_says, shift_or_none, geoid_or_none, Fits, AllFit, Close};

use equation::{Powers, Term};
use kinds::{LocalLatitude, LocalLongitude, LocalPosition, within};
use whole::Parts;

#[derive(Clone, Copy)]
pub enum Datum {
    Cyprus,
    Minna,
    Alaska,
    Qatar,
    Kandawala,
    Nahrwan,
}

impl Datum {
    // All that is particular to it but its tables.
    pub fn frame(self) -> Frame
        ensures { result ≡ frame_of (datum_page self) }
    {
        match self {
            Datum::Cyprus => cyprus::FRAME,
            Datum::Minna => minna::FRAME,
            Datum::Alaska => alaska::FRAME,
            Datum::Qatar => qatar::FRAME,
            Datum::Kandawala => kandawala::FRAME,
            Datum::Nahrwan => nahrwan::FRAME,
        }
    }

    // The shift of a position of the area, or three zeros of a geoid datum. It stands apart from the tests of a point, so that a
    // refusal is short.
    #[inline(never)]
    pub fn shift(self, position: LocalPosition) -> Shift
        requires { in_box (datum_page self) position.latitude.0 position.longitude.0 ≡ true }
        ensures { shift_says result ≡ shift_or_none (worked (datum_page self) position.latitude.0 position.longitude.0) }
    {
        let frame = self.frame();
        let place = frame.place(position);
        self.shift_by_tables(place)
    }

    // The shift at a place, by its tables. With the frame beside them in one function the compiler left products with a zeroth
    // power in, and a point of code 1 took 13 instructions more. That all fits is asked with each place, and not kept in it: a
    // place knows no datum.
    fn shift_by_tables(self, place: Place) -> Shift
        requires { AllFit (datum_page self).equations place.u.0 place.v.0 }
        ensures { shift_says result ≡ shift_or_none (evaluated_at (datum_page self).equations place.u.0 place.v.0) }
    {
        match self {
            Datum::Cyprus => shift_at(
                place,
                &cyprus::LATITUDE,
                &cyprus::LONGITUDE,
                &cyprus::HEIGHT,
            ),
            Datum::Minna => shift_at(place, &minna::LATITUDE, &minna::LONGITUDE, &minna::HEIGHT),
            Datum::Alaska => shift_at(
                place,
                &alaska::LATITUDE,
                &alaska::LONGITUDE,
                &alaska::HEIGHT,
            ),
            Datum::Qatar => shift_at(place, &qatar::LATITUDE, &qatar::LONGITUDE, &qatar::HEIGHT),
            // were it to stop here, the compiler would work the equations where only a refusal is wanted
            Datum::Kandawala | Datum::Nahrwan => Shift {
                latitude: 0,
                longitude: 0,
                height: 0,
            },
        }
    }

    // The geoid height of a position of the area in mm, or 0 of a shift datum. Beside `shift`, and not one enum of both: that took
    // a shift nine instructions more.
    #[inline(never)]
    pub fn geoid(self, position: LocalPosition) -> i32
        requires { in_box (datum_page self) position.latitude.0 position.longitude.0 ≡ true }
        ensures { geoid result ≡ geoid_or_none (worked (datum_page self) position.latitude.0 position.longitude.0) }
    {
        let frame = self.frame();
        let place = frame.place(position);
        self.geoid_by_tables(place)
    }

    // The geoid height at a place, likewise.
    fn geoid_by_tables(self, place: Place) -> i32
        requires { AllFit (datum_page self).equations place.u.0 place.v.0 }
        ensures { geoid result ≡ geoid_or_none (evaluated_at (datum_page self).equations place.u.0 place.v.0) }
    {
        match self {
            Datum::Kandawala => geoid_at(place, &kandawala::HEIGHT),
            Datum::Nahrwan => geoid_at(place, &nahrwan::HEIGHT),
            // likewise
            Datum::Cyprus | Datum::Minna | Datum::Alaska | Datum::Qatar => 0,
        }
    }
}

// What a datum has for a point: a shift, or a geoid height.
#[derive(Clone, Copy, PartialEq, Eq)]
pub enum Family {
    Shift,
    Geoid,
}

// The shift of a point: dLat and dLon in 0.00001", dH in mm.
#[derive(Clone, Copy)]
pub struct Shift {
    pub latitude: i32,
    pub longitude: i32,
    pub height: i32,
}

// What is particular to a datum but its tables: its family, how u and v come of a position, and the ends of the area in ms, of
// which one west of Greenwich may be negative.
#[derive(Clone, Copy)]
pub struct Frame {
    pub family: Family,
    pub u: Axis,
    pub v: Axis,
    pub south: i64,
    pub north: i64,
    pub west: i64,
    pub east: i64,
}

impl Frame {
    // Whether a position is in the area, both ends in.
    pub fn holds(self, position: LocalPosition) -> bool
        ensures { result ≡ enclosed self.south self.north self.west self.east position.latitude.0 position.longitude.0 }
    {
        let latitude = position.latitude;
        let longitude = self.longitude(position);
        within(self.south, self.north, i64::from(latitude.ms()))
            & within(self.west, self.east, longitude)
    }

    // u of the latitude, and v of the longitude.
    pub fn place(self, position: LocalPosition) -> Place
        requires { Close self.u × Close self.v }
        ensures { (result.u.0 ≡ on_axis self.u position.latitude.0) × (result.v.0 ≡ on_axis self.v (counted_from self.west position.longitude.0)) }
    {
        let north = position.latitude;
        let u = self.u;
        let v = self.v;
        Place {
            u: u.along(i64::from(north.ms())),
            v: v.along(self.longitude(position)),
        }
    }

    // The longitude as the page counts it: less a turn, where it is not west of the west end even then.
    fn longitude(self, position: LocalPosition) -> i64
        ensures { (result ≡ counted_from self.west position.longitude.0) × (nat_abs result ≤ 4294967296) }
    {
        let longitude = position.longitude;
        let ms = i64::from(longitude.ms());
        let turned = ms - LocalLongitude::TURN;
        if self.west <= turned { turned } else { ms }
    }
}

// Where a position stands on the page of a datum.
#[derive(Clone, Copy)]
pub struct Place {
    pub u: Parts,
    pub v: Parts,
}

// How u or v comes of ms: the factor times them, less the offset, over the ms of a degree.
#[derive(Clone, Copy)]
pub struct Axis {
    pub factor: i64,
    pub offset: i64,
}

impl Axis {
    fn along(self, ms: i64) -> Parts
        requires { Close self × (nat_abs ms ≤ 4294967296) }
        ensures { result.0 ≡ on_axis self ms }
    {
        Parts(whole::rounded(self.factor * ms - self.offset, LocalLatitude::DEGREE as u64))
    }
}

// The shift at a place, by three tables. It is put in wherever it is called, where a table is a constant, of which the compiler
// makes straight code.
#[inline(always)]
fn shift_at(place: Place, latitude: &[Term], longitude: &[Term], height: &[Term]) -> Shift
    requires { AllFit (shift_by latitude.now longitude.now height.now) place.u.0 place.v.0 }
    ensures { shift_says result ≡ evaluated_at (shift_by latitude.now longitude.now height.now) place.u.0 place.v.0 }
{
    let powers = Powers::of(place.u, place.v);
    Shift {
        latitude: value(latitude, powers),
        longitude: value(longitude, powers),
        height: value(height, powers),
    }
}

// The geoid height at a place, likewise.
#[inline(always)]
fn geoid_at(place: Place, height: &[Term]) -> i32
    requires { AllFit (geoid_by height.now) place.u.0 place.v.0 }
    ensures { geoid result ≡ evaluated_at (geoid_by height.now) place.u.0 place.v.0 }
{
    let powers = Powers::of(place.u, place.v);
    value(height, powers)
}

// One equation: its sum, divided and rounded once, of whose answer 4 bytes are known to be enough.
fn value(table: &[Term], powers: Powers) -> i32
    requires { Fits scale (terms table.now) powers.u.0 powers.v.0 }
    ensures { result ≡ equation_at scale (terms table.now) powers.u.0 powers.v.0 }
{
    whole::rounded(equation::sum(table, powers), Parts::DIVISOR) as i32
}
