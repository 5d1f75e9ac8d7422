// The six codes: the shift or the geoid height of a point, by the tables of its datum.
#![tactic(auto)]

ghost use Rattle.std.specs.Prelude.{◌≡◌};
ghost use Rattle.kinds.specs.Answer.{gives, provided};
ghost use Rattle.kinds.specs.Cases.{local_position, wgs84_position};
ghost use Rattle.tables.specs.Page.{shift};
ghost use Rattle.tables.specs.Inside.{datum_page};
ghost use Rattle.datum.specs.Point.{is_code, page_of, answer_of, shift_of, geoid_of, converted_of};
ghost use Rattle.datum.specs.Cases.{shift_says, shift_answer, geoid_answer, point_answer};
ghost use Rattle.datum.specs.Inside.{datum_answer, coded_as, located, ranged, shifted_by, is_of};

use kinds::{AngleShift, Height, LocalPosition, Refusal, Wgs84Position};
use tables::{Datum, Family, Shift};

// The shifts of a point from its local datum to WGS 84.
#[derive(Clone, Copy)]
pub struct Shifts {
    pub latitude: AngleShift,
    pub longitude: AngleShift,
    pub height: Height,
}

// Three numbers, each as the kind that it is.
impl From<Shift> for Shifts {
    ghost from_gives = { λ by shifts. shift_says shifts ≡ shift by.latitude by.longitude by.height };

    fn from(by: Shift) -> Shifts {
        Shifts {
            latitude: AngleShift::from(by.latitude),
            longitude: AngleShift::from(by.longitude),
            height: Height::from(by.height),
        }
    }
}

// What a datum of either family gives for a point.
#[derive(Clone, Copy)]
pub enum Given {
    Shift(Shifts),
    Geoid(Height),
}

// A point as raw numbers, any of which may be wrong: a code, and a latitude and a longitude on the local datum in ms.
#[derive(Clone, Copy)]
pub struct Point {
    pub code: i64,
    pub latitude: i64,
    pub longitude: i64,
}

impl Point {
    // The shift of a point of codes 1 to 4. Refused, in this order, with 4 where there is no such code, 5 of a geoid datum, 3 where
    // a coordinate is out of range, 6 outside the datum's area.
    // The centre of code 1, at 126,000,000 and 118,800,000 ms, gives -3.84288", -1.10294" and 24.430 m.
    pub fn shift(self) -> Result<Shifts, Refusal>
        ensures { shift_answer result ≡ shift_of self.code self.latitude self.longitude }
    {
        let datum = self.coded_as(Family::Shift)?;
        let position = self.located(datum)?;
        Ok(Shifts::from(datum.shift(position)))
    }

    // The geoid height of a point of codes 5 and 6, likewise; refused with 5 of a shift datum. Beside `shift`, whose answer is of
    // another type.
    // The centre of code 6, at 82,800,000 and 205,200,000 ms, gives 7.464 m.
    pub fn geoid(self) -> Result<Height, Refusal>
        ensures { geoid_answer result ≡ geoid_of self.code self.latitude self.longitude }
    {
        let datum = self.coded_as(Family::Geoid)?;
        let position = self.located(datum)?;
        Ok(Height::from(datum.geoid(position)))
    }

    // The WGS 84 position of a point of codes 1 to 4, by its shift, and refused as that is.
    // The centre of code 1 gives 125,996.15712" and 118,798.89706".
    pub fn wgs84(self) -> Result<Wgs84Position, Refusal>
        ensures { wgs84_position result ≡ converted_of self.code self.latitude self.longitude }
    {
        let shifts = self.shift()?;
        self.shifted(shifts)
    }

    // What the point's datum has, its shift or its geoid height: refused, in this order, with 4, 3, 6 as above, and never with 5. A
    // call of it would take a point of a sheet 26 instructions more.
    #[inline(always)]
    pub fn answer(self) -> Result<Given, Refusal>
        ensures { point_answer result ≡ answer_of self.code self.latitude self.longitude }
    {
        let either = self.coded()?;
        let position = self.located(either)?;
        let frame = either.frame();
        match frame.family {
            Family::Shift => Ok(Given::Shift(Shifts::from(either.shift(position)))),
            Family::Geoid => Ok(Given::Geoid(Height::from(either.geoid(position)))),
        }
    }

    // As a position, wherever it is; refused with 3 out of range.
    fn position(self) -> Result<LocalPosition, Refusal>
        ensures { local_position result ≡ ranged self.latitude self.longitude }
    {
        LocalPosition::new(self.latitude, self.longitude)
    }

    // As a position of a datum's area; refused with 3 out of range, and with 6 outside the area. It stands apart from the work on
    // the equations, which two functions call: so that the compiler leaves that work where it is, and a refusal is short.
    fn located(self, datum: Datum) -> Result<LocalPosition, Refusal>
        ensures { local_position result ≡ located (datum_page datum) self.latitude self.longitude }
    {
        let position = self.position()?;
        let frame = datum.frame();
        let is_inside = frame.holds(position);
        if is_inside {
            Ok(position)
        } else {
            Err(Refusal::Area)
        }
    }

    // Where shifts lead from it; refused with 3 out of range.
    fn shifted(self, shifts: Shifts) -> Result<Wgs84Position, Refusal>
        ensures { wgs84_position result ≡ shifted_by shifts.latitude.0 shifts.longitude.0 self.latitude self.longitude }
    {
        let position = self.position()?;
        Ok(position.shifted(shifts.latitude, shifts.longitude))
    }

    // The datum of a code, where it is of the family that is asked for.
    fn coded_as(self, family: Family) -> Result<Datum, Refusal>
        ensures { datum_answer result ≡ coded_as (is_of family) self.code }
    {
        let datum = self.coded()?;
        let frame = datum.frame();
        if frame.family == family {
            Ok(datum)
        } else {
            Err(Refusal::Family)
        }
    }

    // The one place where a code is tested. By a match, so that no table is laid on the stack, and a call that is refused saves no
    // registers. No `TryFrom<i64>` of `Datum`, which crate `tables` alone could have, where no code is known.
    fn coded(self) -> Result<Datum, Refusal>
        ensures { datum_answer result ≡ provided (is_code self.code) 4 (gives (page_of self.code)) }
    {
        match self.code {
            1 => Ok(Datum::Cyprus),
            2 => Ok(Datum::Minna),
            3 => Ok(Datum::Alaska),
            4 => Ok(Datum::Qatar),
            5 => Ok(Datum::Kandawala),
            6 => Ok(Datum::Nahrwan),
            _ => Err(Refusal::Code),
        }
    }
}
