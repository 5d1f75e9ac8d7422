// A test program, the unit sheet: works sheets into lent buffers, as it is asked. tests/sheets.py asks, and works out what it
// must print from the papers.
#![tactic(auto)]

use std::io;
use std::io::{Read, Write};

// A sheet for a unit, worked into a buffer of the size that is asked: two bytes more than 500 points take, at most.
fn one<R: Read, W: Write>(questions: &mut R, answers: &mut W) -> io::Result<()> {
    let unit = test_ask::number(questions)?;
    let mut sheet = [0; 4522];
    let sheet = test_ask::text(questions, &mut sheet)?;
    let mut out = [b'#'; 6508];
    let out = test_ask::part(questions, &mut out)?;
    let count = sheet::work(unit, sheet, test_ask::part(questions, out)?);
    test_show::written(answers, count)?;
    test_show::bytes(answers, out)
}

// The next sheet, for unit 7: the digit of its refusal, or of its first point's, or 0.
fn tried<R: Read, W: Write>(
    questions: &mut R,
    answers: &mut W,
    out: &mut [u8; 47],
) -> io::Result<()> {
    let mut sheet = [0; 38];
    let sheet = test_ask::text(questions, &mut sheet)?;
    match sheet::work(7, sheet, out) {
        // the first byte after the serial and the count of points
        Ok(_) => test_show::digit(answers, out[6]),
        Err(why) => test_show::digit(answers, why.number()),
    }
}

// Sheets into one buffer, until another letter comes; and the buffer after the last.
fn all<R: Read, W: Write>(questions: &mut R, answers: &mut W) -> io::Result<()> {
    let mut out = [b'#'; 47];
    // counted for the reason of `each` of test_ask, and not by it, since any letter but + ends these
    for _ in 0..u64::MAX {
        let Some(b'+') = test_ask::letter(questions)? else {
            break;
        };
        tried(questions, answers, &mut out)?;
    }
    test_show::bytes(answers, &out)
}

fn answer<R: Read, W: Write>(questions: &mut R, answers: &mut W, letter: u8) -> io::Result<()> {
    // the letter says at run time what is asked (`each` of test_ask)
    match letter {
        b'=' => test_ask::label(questions, answers),
        b'o' => one(questions, answers),
        b's' => all(questions, answers),
        _ => Ok(()),
    }
}

fn main(rt: HostRuntime) -> io::Result<()> {
    test_ask::each(&mut rt.stdin(), &mut rt.stdout(), answer)
}
