// A test program, one line at a time: answers lines into lent buffers, as it is asked. tests/lines.py asks, and works out what
// it must print from the papers.
#![tactic(auto)]

use std::io;
use std::io::{Read, Write};

// A line, answered into a buffer.
fn line<R: Read, W: Write>(questions: &mut R, answers: &mut W) -> io::Result<()> {
    let mut text = [0; 40];
    let text = test_ask::text(questions, &mut text)?;
    let mut out = [b'#'; 40];
    let count = line::line(text, test_ask::part(questions, &mut out)?);
    test_show::lent(answers, count, &out)
}

fn answer<R: Read, W: Write>(questions: &mut R, answers: &mut W, letter: u8) -> io::Result<()> {
    // the letter says at run time what is asked (`each` of test_ask)
    match letter {
        b'=' => test_ask::label(questions, answers),
        b'l' => line(questions, answers),
        _ => Ok(()),
    }
}

fn main(rt: HostRuntime) -> io::Result<()> {
    test_ask::each(&mut rt.stdin(), &mut rt.stdout(), answer)
}
