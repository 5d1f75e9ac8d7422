// How the test programs print answers, each with a space before it: numbers, floats by their bits, bytes, refusals and counts.
#![tactic(auto)]

ghost use Rattle.std.specs.Prelude.{◌++◌, OnOk, IfOk, IfErr};
ghost use Rattle.std.specs.Io.KnownBytes.{Appends};
ghost use Rattle.kinds.specs.Answer.{number_of};
ghost use Rattle.test_show.specs.Shown.{spaced, refusal_text, written_text, Shows, ShowsEach};

use kinds::Refusal;
use std::fmt::Display;
use std::io;
use std::io::Write;

pub fn number<W: Write, N: Display + Drop>(answers: &mut W, n: N) -> io::Result<()> {
    write!(answers, " {n}")
}

// The bits in hexadecimal. A NaN has no bits that could be asked for.
pub fn float<W: Write>(answers: &mut W, x: f64) -> io::Result<()> {
    if x.is_nan() {
        answers.write_all(b" nan")
    } else {
        write!(answers, " {:016x}", x.to_bits())
    }
}

// Each of several, in their order, by a function for one.
pub fn each<W: Write, T: Copy, F: Fn(&mut W, T) -> io::Result<()>>(
    answers: &mut W,
    several: &[T],
    show: F,
) -> io::Result<()>
    requires { F.IsAlwaysCallable show }
    ensures { OnOk result (ShowsEach (F.post show) answers.old several.now answers.new) }
{
    for one in several {
        show(answers, *one)?;
    }
    Ok(())
}

// As they stand.
pub fn text<W: Write>(answers: &mut W, bytes: &[u8]) -> io::Result<()>
    ensures { OnOk result (Appends (W.contents answers.old) (W.contents answers.new) (spaced bytes.now)) }
{
    answers.write_all(b" ")?;
    answers.write_all(bytes)
}

// Two digits a byte.
pub fn bytes<W: Write>(answers: &mut W, bytes: &[u8]) -> io::Result<()> {
    answers.write_all(b" ")?;
    for byte in bytes {
        write!(answers, "{byte:02x}")?;
    }
    Ok(())
}

// With no space: one digit of a number below 10.
pub fn digit<W: Write>(answers: &mut W, n: u8) -> io::Result<()> {
    if n < 10 {
        write!(answers, "{n}")
    } else {
        write!(answers, "{n:02x}")
    }
}

pub fn refused<W: Write>(answers: &mut W, why: Refusal) -> io::Result<()>
    ensures { OnOk result (Appends (W.contents answers.old) (W.contents answers.new)
        (refusal_text (number_of why))) }
{
    refusal(answers, why.number())
}

// By its number, which is all that the floating answer has: document 01 names this form.
pub fn refusal<W: Write>(answers: &mut W, n: u8) -> io::Result<()>
    ensures { OnOk result (Appends (W.contents answers.old) (W.contents answers.new) (refusal_text n)) }
{
    write!(answers, " refused {n}")
}

// What a call answers, by a function for what it gives; or why it gives none.
pub fn answer<W: Write, T, F: FnOnce(&mut W, T) -> io::Result<()>>(
    answers: &mut W,
    answer: Result<T, Refusal>,
    show: F,
) -> io::Result<()>
    requires { F.IsAlwaysCallable show }
    ensures given { IfOk answer (λ given. Shows (F.post show) answers.old given result answers.new) }
    ensures refused { IfErr answer (λ why. OnOk result
        (Appends (W.contents answers.old) (W.contents answers.new) (refusal_text (number_of why)))) }
{
    match answer {
        Ok(given) => show(answers, given),
        Err(why) => refused(answers, why),
    }
}

// How many bytes were written.
pub fn written<W: Write>(answers: &mut W, count: Result<usize, Refusal>) -> io::Result<()>
    ensures { OnOk result (Appends (W.contents answers.old) (W.contents answers.new) (written_text count)) }
{
    answer(answers, count, |answers, n| write!(answers, " wrote {n}"))
}

// What a call answers that writes into the start of a lent buffer; and all of the buffer, as text.
// Text, room and call stand at each caller: with a closure for the call they are no shorter.
pub fn lent<W: Write>(answers: &mut W, count: Result<usize, Refusal>, out: &[u8]) -> io::Result<()>
    ensures { OnOk result (Appends (W.contents answers.old) (W.contents answers.new)
        (written_text count ++ spaced out.now)) }
{
    written(answers, count)?;
    text(answers, out)
}
