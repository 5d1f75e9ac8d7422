// A test program: points through the calls that take one, in units and as floats, as it is asked. tests/pages.py asks, and works
// out what it must print from the papers.
#![tactic(auto)]

mod floats;

use datum::{Given, Point, Shifts};
use kinds::Height;
use std::io;
use std::io::{Read, Write};

fn shifted<W: Write>(answers: &mut W, shifts: Shifts) -> io::Result<()> {
    let angles = [shifts.latitude.units(), shifts.longitude.units()];
    test_show::each(answers, &angles, test_show::number)?;
    raised(answers, shifts.height)
}

fn raised<W: Write>(answers: &mut W, height: Height) -> io::Result<()> {
    test_show::number(answers, height.mm())
}

fn either<W: Write>(answers: &mut W, given: Given) -> io::Result<()> {
    match given {
        Given::Shift(shifts) => shifted(answers, shifts),
        Given::Geoid(height) => raised(answers, height),
    }
}

fn point<W: Write>(answers: &mut W, point: Point) -> io::Result<()> {
    test_show::answer(answers, point.answer(), either)?;
    test_show::answer(answers, point.shift(), shifted)?;
    test_show::answer(answers, point.geoid(), raised)?;
    floats::either(answers, point)?;
    floats::each(answers, point)
}

fn answer<R: Read, W: Write>(questions: &mut R, answers: &mut W, letter: u8) -> io::Result<()> {
    // the letter says at run time what is asked (`each` of test_ask)
    match letter {
        b'=' => test_ask::label(questions, answers),
        b'f' => floats::made(answers, test_ask::number(questions)?),
        b'p' => {
            let asked = Point {
                code: test_ask::number(questions)?,
                latitude: test_ask::number(questions)?,
                longitude: test_ask::number(questions)?,
            };
            point(answers, asked)
        }
        _ => Ok(()),
    }
}

fn main(rt: HostRuntime) -> io::Result<()> {
    test_ask::each(&mut rt.stdin(), &mut rt.stdout(), answer)
}
