// How the test programs read what they are asked: a letter, and after it numbers, texts and counts, as tests/program.py writes
// them. Past the end of the input there is no letter, a number is 0, and a text has no bytes. Texts and answers stand in arrays
// that are lent: none of the test programs allocates, so that none can run out of memory.
#![tactic(auto)]

ghost use Rattle.std.specs.Prelude.{◌≡◌, ◌≤◌, ◌<◌, length, take, IfOk, OnOk, IfSome};
ghost use Rattle.std.specs.Io.{ReadsAtMost};
ghost use Rattle.test_ask.specs.Asked.{Fills, IsAsked, AnswersEach};

use std::io;
use std::io::{Read, Write};

// The letter of a question, if one comes. No letter is 0, which stays where no byte came.
pub fn letter<R: Read>(questions: &mut R) -> io::Result<Option<u8>>
    ensures asked { IfOk result (IsAsked (R.remaining questions.old) (R.remaining questions.new)) }
    ensures nonzero { IfOk result (λ letter. IfSome letter (λ letter. 0 < letter)) }
{
    let mut read = [0; 1];
    fill(questions, &mut read)?;
    match read {
        [0] => Ok(None),
        [letter] => Ok(Some(letter)),
    }
}

// A number, in the eight bytes of its two's complement.
pub fn number<R: Read>(questions: &mut R) -> io::Result<i64> {
    let mut read = [0; 8];
    fill(questions, &mut read)?;
    Ok(i64::from_be_bytes(read))
}

// A count, in two bytes.
fn count<R: Read>(questions: &mut R) -> io::Result<usize> {
    let mut read = [0; 2];
    fill(questions, &mut read)?;
    Ok(usize::from(u16::from_be_bytes(read)))
}

// Reads until a buffer is full or the input ends. What no byte came for stays as it was.
pub fn fill<R: Read>(questions: &mut R, read: &mut [u8]) -> io::Result<()>
    ensures { OnOk result (Fills (R.remaining questions.old) (R.remaining questions.new) read.new) }
{
    let mut done = 0;
    // no `for`: each turn goes on by what was read
    while done < read.len() {
        let n = questions.read(&mut read[done..])?;
        if n == 0 {
            break;
        }
        done += n;
    }
    Ok(())
}

// How many bytes of a buffer to use: all where more are asked.
pub fn room<R: Read>(questions: &mut R, out: &[u8]) -> io::Result<usize>
    ensures { ReadsAtMost result out.now }
{
    Ok(count(questions)?.min(out.len()))
}

// The start of a buffer, as much of it as is asked.
// No clause says what the buffer is after the loan, or on Err: that takes a `Lends`, and the prover finds none for a part of a slice.
pub fn part<'a, R: Read>(questions: &mut R, out: &'a mut [u8]) -> io::Result<&'a mut [u8]>
    ensures { IfOk result (λ part. (length part.now ≤ length out.old) × (part.now ≡ take (length part.now) out.old)) }
{
    let n = room(questions, out)?;
    Ok(&mut out[..n])
}

// A text, after its count: as much of it as a buffer holds, put at its start.
pub fn text<'a, R: Read>(questions: &mut R, out: &'a mut [u8]) -> io::Result<&'a [u8]>
    ensures { IfOk result (λ text. length text.now ≤ length out.old) }
{
    let text = part(questions, out)?;
    fill(questions, text)?;
    Ok(text)
}

// Answers each question by its letter, until none comes. A program matches the letter, since it says at run time what is asked.
pub fn each<R: Read, W: Write, F: Fn(&mut R, &mut W, u8) -> io::Result<()>>(
    questions: &mut R,
    answers: &mut W,
    answer: F,
) -> io::Result<()>
    requires { F.IsAlwaysCallable answer }
    ensures { OnOk result (AnswersEach R.remaining (F.post answer) questions.old answers.old questions.new answers.new) }
{
    // no `while let`: no measure falls, as no reader says how much it has left; no input has so many turns
    for _ in 0..u64::MAX {
        let Some(asked) = letter(questions)? else {
            break;
        };
        answer(questions, answers, asked)?;
    }
    Ok(())
}

// A text that is printed as it stands: what a case is called.
pub fn label<R: Read, W: Write>(questions: &mut R, answers: &mut W) -> io::Result<()> {
    let mut words = [0; 64];
    answers.write_all(text(questions, &mut words)?)
}
