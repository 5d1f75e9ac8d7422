// A test program: waypoints of points and of lines into lent buffers, of positions on WGS 84, and of an input, as it is asked.
// tests/waypoints.py asks, and works out what it must print from the papers.
#![tactic(auto)]

use datum::Point;
use kinds::{Refusal, Wgs84Latitude, Wgs84Longitude, Wgs84Position};
use line::Form;
use std::io;
use std::io::{Read, Write};
use stream::Reading;

// The waypoint of a point, in a buffer.
fn point<R: Read, W: Write>(questions: &mut R, answers: &mut W) -> io::Result<()> {
    let point = Point {
        code: test_ask::number(questions)?,
        latitude: test_ask::number(questions)?,
        longitude: test_ask::number(questions)?,
    };
    let mut out = [b'#'; 50];
    let room = test_ask::part(questions, &mut out)?;
    let count = waypoint::waypoint(point, room);
    test_show::lent(answers, count, &out)
}

// The element of a position in 0.00001", at the start of a buffer that has room for any.
fn put(latitude: i64, longitude: i64, out: &mut [u8; 50]) -> Result<usize, Refusal> {
    let north = Wgs84Latitude::new(latitude)?;
    let east = Wgs84Longitude::new(longitude)?;
    let position = Wgs84Position {
        latitude: north,
        longitude: east,
    };
    Ok(waypoint::element(position, out))
}

// The same, and all of the buffer; or why it is no position.
fn element<W: Write>(answers: &mut W, latitude: i64, longitude: i64) -> io::Result<()> {
    let mut out = [b'#'; 50];
    match put(latitude, longitude, &mut out) {
        Ok(count) => test_show::lent(answers, Ok(count), &out),
        Err(why) => test_show::refused(answers, why),
    }
}

// A line, answered with its waypoint, likewise.
fn line<R: Read, W: Write>(questions: &mut R, answers: &mut W) -> io::Result<()> {
    let mut text = [0; 40];
    let text = test_ask::text(questions, &mut text)?;
    let mut out = [b'#'; 50];
    let room = test_ask::part(questions, &mut out)?;
    let count = line::line_in(Form::Waypoints, text, room);
    test_show::lent(answers, count, &out)
}

// An input in one piece, into the start of a buffer: how much of it is taken, how much is put, and all of the buffer; and then what
// the end of the input gives, with all of the buffer lent.
fn input<R: Read, W: Write>(questions: &mut R, answers: &mut W) -> io::Result<()> {
    let mut text = [0; 60];
    let text = test_ask::text(questions, &mut text)?;
    let mut out = [b'#'; 150];
    let room = test_ask::part(questions, &mut out)?;
    let fed = stream::feed(Reading::start(Form::Waypoints), text, room);
    write!(answers, " took {} put {}", fed.taken, fed.put)?;
    test_show::text(answers, &out)?;
    let last = stream::finish(fed.reading, &mut out);
    test_show::text(answers, &out[..last.put])
}

fn answer<R: Read, W: Write>(questions: &mut R, answers: &mut W, letter: u8) -> io::Result<()> {
    // the letter says at run time what is asked (`each` of test_ask)
    match letter {
        b'=' => test_ask::label(questions, answers),
        b'w' => point(questions, answers),
        b'e' => element(
            answers,
            test_ask::number(questions)?,
            test_ask::number(questions)?,
        ),
        b'l' => line(questions, answers),
        b'i' => input(questions, answers),
        _ => Ok(()),
    }
}

fn main(rt: HostRuntime) -> io::Result<()> {
    test_ask::each(&mut rt.stdin(), &mut rt.stdout(), answer)
}
