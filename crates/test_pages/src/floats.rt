// The answers as floats, by their bits in hexadecimal.
use datum::{Point, Shifts};
use floating::{Answer, ShiftFloats};
use kinds::{AngleShift, Height};
use std::io;
use std::io::Write;

fn shifted<W: Write>(answers: &mut W, shift: ShiftFloats) -> io::Result<()> {
    let three = [shift.latitude, shift.longitude, shift.height];
    test_show::each(answers, &three, test_show::float)
}

pub(crate) fn either<W: Write>(answers: &mut W, point: Point) -> io::Result<()> {
    match floating::floating(point) {
        Answer::Shift(shift) => shifted(answers, shift),
        Answer::Geoid(height) => test_show::float(answers, height),
        Answer::Refused(number) => test_show::refusal(answers, number),
    }
}

// The four calls for a point.
pub(crate) fn each<W: Write>(answers: &mut W, point: Point) -> io::Result<()> {
    let three = [
        floating::first(point),
        floating::second(point),
        floating::third(point),
    ];
    test_show::each(answers, &three, test_show::float)?;
    test_show::number(answers, floating::refusal(point))
}

// The floats of one whole number of 4 bytes as each of the three shifts.
pub(crate) fn made<W: Write>(answers: &mut W, n: i64) -> io::Result<()> {
    let Ok(shift) = AngleShift::new(n) else {
        return Ok(());
    };
    let angle = AngleShift::from(shift.units());
    let height = Height::from(shift.units());
    let shifts = Shifts {
        latitude: angle,
        longitude: angle,
        height,
    };
    shifted(answers, ShiftFloats::from(shifts))
}
