// A test program: quotients, powers, kinds and an area at the edges of the machine's numbers and of each range, as it is asked.
// tests/pages.py asks, and works out what it must print from the papers.
#![tactic(auto)]

mod made;
mod west;

use kinds::Refusal;
use std::io;
use std::io::{Read, Write};

// A number over another, from 2 to 2^62: none below or above.
fn quotient<W: Write>(answers: &mut W, n: i64, d: u64) -> io::Result<()> {
    if (2..=4_611_686_018_427_387_904).contains(&d) {
        test_show::number(answers, whole::rounded(n, d))?;
    }
    Ok(())
}

// The powers of the size of u from the second to the ninth: none where it is larger than 2.55.
fn powers<W: Write>(answers: &mut W, u: i64) -> io::Result<()> {
    if u.unsigned_abs() <= 255_000_000 {
        let p = equation::size_powers(whole::Parts(u));
        test_show::each(answers, &p[2..10], test_show::number)?;
    }
    Ok(())
}

fn refusals<W: Write>(answers: &mut W) -> io::Result<()> {
    let all = [
        Refusal::Length,
        Refusal::Kind,
        Refusal::Range,
        Refusal::Code,
        Refusal::Family,
        Refusal::Area,
        Refusal::Room,
        Refusal::Foreign,
        Refusal::Sheet,
    ];
    test_show::each(answers, &all, test_show::refused)
}

// A text, put at the start of a buffer.
fn put<R: Read, W: Write>(questions: &mut R, answers: &mut W) -> io::Result<()> {
    let mut text = [0; 20];
    let text = test_ask::text(questions, &mut text)?;
    let mut out = [b'#'; 14];
    let count = kinds::put(text, test_ask::part(questions, &mut out)?);
    test_show::lent(answers, count, &out)
}

fn answer<R: Read, W: Write>(questions: &mut R, answers: &mut W, letter: u8) -> io::Result<()> {
    // the letter says at run time what is asked (`each` of test_ask)
    match letter {
        b'=' => test_ask::label(questions, answers),
        b'q' => quotient(
            answers,
            test_ask::number(questions)?,
            test_ask::number(questions)?.unsigned_abs(),
        ),
        b'r' => test_show::number(
            answers,
            whole::rounded(test_ask::number(questions)?, whole::Parts::DIVISOR),
        ),
        b'p' => powers(answers, test_ask::number(questions)?),
        b'n' => refusals(answers),
        b'k' => made::all(answers, test_ask::number(questions)?),
        b'c' => made::converted(
            answers,
            test_ask::number(questions)?,
            test_ask::number(questions)?,
        ),
        b'w' => west::held(
            answers,
            test_ask::number(questions)?,
            test_ask::number(questions)?,
        ),
        b't' => put(questions, answers),
        _ => Ok(()),
    }
}

fn main(rt: HostRuntime) -> io::Result<()> {
    test_ask::each(&mut rt.stdin(), &mut rt.stdout(), answer)
}
