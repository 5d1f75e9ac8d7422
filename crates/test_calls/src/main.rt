// A test program: every exported call, as it is asked, as C would see it: all fields of each answer, and every byte of a lent
// buffer. tests/calls.py asks, and works out what it must print from the papers.
#![tactic(auto)]

use buckettin::{Read, Written};
use std::fmt::Display;
use std::io;
use std::io::Write;

// The refusal of an answer, and the numbers beside it. C has a struct for each call, so each names its fields.
fn said<W: Write, N: Display + Copy + Drop>(
    answers: &mut W,
    refusal: u32,
    numbers: &[N],
) -> io::Result<()> {
    test_show::number(answers, refusal)?;
    test_show::each(answers, numbers, test_show::number)
}

fn shift<W: Write>(answers: &mut W, code: i64, latitude: i64, longitude: i64) -> io::Result<()> {
    let shift = buckettin::buckettin_shift(code, latitude, longitude);
    let shifts = [shift.dlat, shift.dlon, shift.dh];
    said(answers, shift.refusal, &shifts)
}

fn geoid<W: Write>(answers: &mut W, code: i64, latitude: i64, longitude: i64) -> io::Result<()> {
    let geoid = buckettin::buckettin_geoid(code, latitude, longitude);
    said(answers, geoid.refusal, &[geoid.n])
}

fn floats<W: Write>(answers: &mut W, code: i64, latitude: i64, longitude: i64) -> io::Result<()> {
    let three = [
        buckettin::buckettin_first(code, latitude, longitude),
        buckettin::buckettin_second(code, latitude, longitude),
        buckettin::buckettin_third(code, latitude, longitude),
    ];
    test_show::each(answers, &three, test_show::float)?;
    let refusal = buckettin::buckettin_refusal(code, latitude, longitude);
    test_show::number(answers, refusal)
}

// A point through the six calls that take one: as three numbers, which is how C has it.
fn point<W: Write>(answers: &mut W, code: i64, latitude: i64, longitude: i64) -> io::Result<()> {
    shift(answers, code, latitude, longitude)?;
    geoid(answers, code, latitude, longitude)?;
    floats(answers, code, latitude, longitude)
}

fn said_read<W: Write>(answers: &mut W, read: Read) -> io::Result<()> {
    said(answers, read.refusal, &[read.ms])
}

// A text as a latitude and as a longitude.
fn text<R: io::Read, W: Write>(questions: &mut R, answers: &mut W) -> io::Result<()> {
    let mut text = [0; 20];
    let text = test_ask::text(questions, &mut text)?;
    said_read(answers, buckettin::buckettin_read_latitude(text))?;
    said_read(answers, buckettin::buckettin_read_longitude(text))
}

fn said_written<W: Write>(answers: &mut W, written: Written) -> io::Result<()> {
    said(answers, written.refusal, &[written.written])
}

// The same, and all of the buffer that was lent.
fn lent<W: Write>(answers: &mut W, written: Written, out: &[u8]) -> io::Result<()> {
    said_written(answers, written)?;
    test_show::text(answers, out)
}

// A number, written by `write` into a buffer.
fn position<R: io::Read, W: Write, F: Fn(i64, &mut [u8]) -> Written>(
    questions: &mut R,
    answers: &mut W,
    write: F,
) -> io::Result<()>
    requires { F.IsAlwaysCallable write }
{
    let ms = test_ask::number(questions)?;
    let mut out = [b'#'; 14];
    let written = write(ms, test_ask::part(questions, &mut out)?);
    lent(answers, written, &out)
}

fn line<R: io::Read, W: Write>(questions: &mut R, answers: &mut W) -> io::Result<()> {
    let mut text = [0; 40];
    let text = test_ask::text(questions, &mut text)?;
    let mut out = [b'#'; 24];
    let room = test_ask::part(questions, &mut out)?;
    let written = buckettin::buckettin_line(text, room);
    lent(answers, written, &out)
}

// A sheet, whose result is no text.
fn sheet<R: io::Read, W: Write>(questions: &mut R, answers: &mut W) -> io::Result<()> {
    let unit = test_ask::number(questions)?;
    let mut sheet = [0; 20];
    let sheet = test_ask::text(questions, &mut sheet)?;
    let mut out = [b'#'; 20];
    let room = test_ask::part(questions, &mut out)?;
    let written = buckettin::buckettin_sheet(unit, sheet, room);
    said_written(answers, written)?;
    test_show::bytes(answers, &out)
}

fn waypoint<R: io::Read, W: Write>(questions: &mut R, answers: &mut W) -> io::Result<()> {
    let code = test_ask::number(questions)?;
    let latitude = test_ask::number(questions)?;
    let longitude = test_ask::number(questions)?;
    let mut out = [b'#'; 50];
    let room = test_ask::part(questions, &mut out)?;
    let written = buckettin::buckettin_waypoint(code, latitude, longitude, room);
    lent(answers, written, &out)
}

fn answer<R: io::Read, W: Write>(questions: &mut R, answers: &mut W, letter: u8) -> io::Result<()> {
    // the letter says at run time what is asked (`each` of test_ask)
    match letter {
        b'=' => test_ask::label(questions, answers),
        b'p' => point(
            answers,
            test_ask::number(questions)?,
            test_ask::number(questions)?,
            test_ask::number(questions)?,
        ),
        b't' => text(questions, answers),
        b'a' => position(questions, answers, buckettin::buckettin_write_latitude),
        b'o' => position(questions, answers, buckettin::buckettin_write_longitude),
        b'l' => line(questions, answers),
        b's' => sheet(questions, answers),
        b'w' => waypoint(questions, answers),
        _ => Ok(()),
    }
}

fn main(rt: HostRuntime) -> io::Result<()> {
    test_ask::each(&mut rt.stdin(), &mut rt.stdout(), answer)
}
