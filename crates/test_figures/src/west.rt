// An area through Greenwich, which none of the six datums has: its west end is negative.
use kinds::{LocalLatitude, LocalPosition};
use std::io;
use std::io::Write;
use tables::{Axis, Family, Frame};

// From 42° to 58° N and from 5° W to 15° E.
const FRAME: Frame = Frame {
    family: Family::Shift,
    u: Axis {
        factor: 1,
        offset: 0,
    },
    v: Axis {
        factor: 1,
        offset: 0,
    },
    south: 42 * LocalLatitude::DEGREE,
    north: 58 * LocalLatitude::DEGREE,
    west: -5 * LocalLatitude::DEGREE,
    east: 15 * LocalLatitude::DEGREE,
};

// 1 where it holds a position and 0 where not; nothing of numbers that are no position.
pub(crate) fn held<W: Write>(answers: &mut W, latitude: i64, longitude: i64) -> io::Result<()> {
    let Ok(position) = LocalPosition::new(latitude, longitude) else {
        return Ok(());
    };
    test_show::number(answers, u8::from(FRAME.holds(position)))
}
