// A test program, positions as text: reads texts, and writes numbers into lent buffers, as it is asked. tests/pages.py asks, and
// works out what it must print from the papers.
#![tactic(auto)]

use kinds::Refusal;
use std::io;
use std::io::{Read, Write};

// A number is printed in brackets, a refusal as its digit alone.
fn said<W: Write>(answers: &mut W, read: Result<i32, Refusal>) -> io::Result<()> {
    match read {
        Ok(ms) => write!(answers, "({ms})"),
        Err(why) => test_show::digit(answers, why.number()),
    }
}

// A text read as a latitude, and one as a longitude.
fn both<W: Write>(answers: &mut W, latitude: &[u8], longitude: &[u8]) -> io::Result<()> {
    said(answers, position::read_latitude(latitude).map(|x| x.ms()))?;
    said(answers, position::read_longitude(longitude).map(|x| x.ms()))
}

// A text, read as each.
fn read<R: Read, W: Write>(questions: &mut R, answers: &mut W) -> io::Result<()> {
    let mut text = [0; 20];
    let text = test_ask::text(questions, &mut text)?;
    both(answers, text, text)
}

// Twelve bytes: the last eleven, read as a latitude, and all, read as a longitude.
fn read_twelve<R: Read, W: Write>(questions: &mut R, answers: &mut W) -> io::Result<()> {
    let mut text = [0; 12];
    test_ask::fill(questions, &mut text)?;
    both(answers, &text[1..], &text)
}

// A number, written by `write` into a buffer.
fn written<R: Read, W: Write, F: Fn(i64, &mut [u8]) -> Result<usize, Refusal>>(
    questions: &mut R,
    answers: &mut W,
    write: F,
) -> io::Result<()>
    requires { F.IsAlwaysCallable write }
{
    let ms = test_ask::number(questions)?;
    let mut out = [b'#'; 14];
    let count = write(ms, test_ask::part(questions, &mut out)?);
    test_show::lent(answers, count, &out)
}

fn answer<R: Read, W: Write>(questions: &mut R, answers: &mut W, letter: u8) -> io::Result<()> {
    // the letter says at run time what is asked (`each` of test_ask)
    match letter {
        b'=' => test_ask::label(questions, answers),
        b'r' => read(questions, answers),
        b't' => read_twelve(questions, answers),
        b'a' => written(questions, answers, position::write_latitude),
        b'o' => written(questions, answers, position::write_longitude),
        _ => Ok(()),
    }
}

fn main(rt: HostRuntime) -> io::Result<()> {
    test_ask::each(&mut rt.stdin(), &mut rt.stdout(), answer)
}
