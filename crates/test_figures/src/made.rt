// A raw number through the constructor of each kind, and positions converted.
use kinds::{
    AngleShift, Height, LocalLatitude, LocalLongitude, Refusal, Wgs84Latitude, Wgs84Longitude,
};
use std::fmt::Display;
use std::io;
use std::io::Write;

// A shift and a height are made again, each of its 4 bytes.
pub(crate) fn all<W: Write>(answers: &mut W, n: i64) -> io::Result<()> {
    number(answers, LocalLatitude::new(n).map(|x| x.ms()))?;
    number(answers, LocalLongitude::new(n).map(|x| x.ms()))?;
    number(answers, Wgs84Latitude::new(n).map(|x| x.units()))?;
    number(answers, Wgs84Longitude::new(n).map(|x| x.units()))?;
    number(
        answers,
        AngleShift::new(n).map(|x| AngleShift::from(x.units()).units()),
    )?;
    number(answers, Height::new(n).map(|x| Height::from(x.mm()).mm()))
}

// A local latitude, and a longitude of the same ms, by a shift.
pub(crate) fn converted<W: Write>(answers: &mut W, ms: i64, shift: i64) -> io::Result<()> {
    let Ok(by) = AngleShift::new(shift) else {
        return Ok(());
    };
    number(
        answers,
        LocalLatitude::new(ms).map(|x| x.shifted(by).units()),
    )?;
    number(
        answers,
        LocalLongitude::new(ms).map(|x| x.shifted(by).units()),
    )
}

// A number, or why there is none.
fn number<W: Write, N: Display + Drop>(
    answers: &mut W,
    made: Result<N, Refusal>,
) -> io::Result<()> {
    test_show::answer(answers, made, test_show::number)
}
