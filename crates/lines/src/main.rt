// The line program: answers each line of standard input on standard output, with numbers or, where it is called with `--gpx`, in a
// GPX file of waypoints. Where reading or writing fails, it says so on standard error and stops; where the limit ended the input,
// it says so there too. No contract says which bytes a descriptor gives and takes: those here say what becomes of the bytes that
// stand in a buffer after a read, and how many bytes are handed over to be written for them; and of a reader and a writer whose
// bytes are known, that the output of those that were read is what was written.
#![tactic(auto)]

ghost use Rattle.std.specs.Prelude.{◌≡◌, ◌↔◌, ◌+◌, ◌<◌, ◌≤◌, length, take, Ok, IsOk, IfOk, OnOk, IsErr, IsErrOf};
ghost use Rattle.std.specs.Io.KnownBytes.{Appends, Consumes, IsAtEnd};
ghost use Rattle.stream.specs.Stream.{head, foot, held, answers, closing};
ghost use Rattle.lines.specs.declared.Failure.TheVariants.{Unwritten};
ghost use Rattle.lines.specs.Asked.{asked};
ghost use Rattle.lines.specs.Edges.{edge_text};
ghost use Rattle.lines.specs.Answered.{Answered, Ended, WritesLines, WritesOutput};

use line::Form;
use std::env::{Env, FillError};
use std::io::{Read, Write};
use std::{fmt, io};
use stream::Reading;

// how many bytes are read at a time
const INPUT: usize = 65_536;

// room for the answers of 2,428 lines, the most of 26 bytes that end in what is read at a time: 48 bytes for each
const OUTPUT: usize = 116_544;

// Where in an output a text stands that tells of no line: before the first, or after the last.
#[derive(Clone, Copy)]
enum Edge {
    Head,
    Foot,
}

// The reading after some bytes, how many these are, and how many were handed over for them.
#[derive(Clone, Copy)]
struct Turn {
    reading: Reading,
    count: usize,
    handed: usize,
}

// Why the program stops before the input ends.
#[derive(Clone, Copy)]
enum Failure {
    Unread,
    Unwritten,
}

// What fails is a write, but for a read, which `turned` tells apart.
impl From<io::Error> for Failure {
    ghost from_gives = { λ _ failure. failure ≡ Unwritten };

    fn from(_error: io::Error) -> Failure {
        Failure::Unwritten
    }
}

impl fmt::Display for Failure {
    fn fmt<W: fmt::Write>(&self, f: &mut fmt::Formatter<W>) -> fmt::Result {
        match self {
            Failure::Unread => write!(f, "lines: standard input could not be read"),
            Failure::Unwritten => write!(f, "lines: standard output could not be written"),
        }
    }
}

fn main(rt: HostRuntime) {
    // a longer word is no `--gpx`, and comes as an empty one
    let mut word = [0; 5];
    let count = rt.arg(1, &mut word).unwrap_or(0);
    match asked(word_count(&rt), &word[..count]) {
        Some(form) => in_form(&rt, form, &mut rt.stdin(), &mut rt.stdout()),
        None => {
            let _ = eprintln!(rt; "lines: it takes no argument but --gpx");
        }
    }
}

// How many words the program is called with, its name among them. Counted one by one: the library's `args` would allocate them.
fn word_count<E: Env>(rt: &E) -> usize {
    for i in 0..usize::MAX {
        if let Err(FillError::NotPresent) = rt.arg(i, &mut []) {
            return i;
        }
    }
    usize::MAX
}

// The form that so many words ask for, the program's name among them, by the one after the name.
#[tactic(auto, using(crate::proofs::Texts::word_asked))]
fn asked(words: usize, next: &[u8]) -> Option<Form>
    ensures { result ≡ asked words next.now }
{
    if words < 2 {
        return Some(Form::Numbers);
    }
    if (words == 2) & (next == b"--gpx".as_slice()) {
        return Some(Form::Waypoints);
    }
    None
}

fn in_form<E: Eprint, R: Read, W: Write>(rt: &E, form: Form, reader: &mut R, writer: &mut W) {
    // in fixed memory, with no heap
    let mut input = [0; INPUT];
    let mut output = [0; OUTPUT];
    match run(form, reader, writer, &mut input, &mut output) {
        Ok(last) => tell(rt, form, last),
        Err(failure) => {
            let _ = eprintln!(rt; "{failure}");
        }
    }
}

// Says where nothing more may be taken, of a run that has ended. Whether bytes follow is not known, since to know it one of them
// would have to be read.
fn tell<E: Eprint>(rt: &E, form: Form, last: Turn)
    requires { Ended form last last.handed }
{
    let reading = last.reading;
    if reading.left() == 0 {
        let _ = eprintln!(rt;
            "lines: 100,000,000 bytes were read, which is the most; any bytes that follow are not answered"
        );
    }
}

// Hands over the head, the answers and the foot. The answer counts the bytes of the last read, and those that were handed over in
// all. No struct of the four that are lent: the proof of `read` did not close by it, where a part of its array is lent.
fn run<R: Read, W: Write>(
    form: Form,
    reader: &mut R,
    writer: &mut W,
    input: &mut [u8; INPUT],
    output: &mut [u8; OUTPUT],
) -> Result<Turn, Failure>
    ensures ended { IfOk result (λ last. Ended form last last.handed) }
    ensures written { OnOk result (WritesOutput form (R.remaining reader.old) (W.contents writer.old) (W.contents writer.new)) }
{
    let before = at_edge(writer, Edge::Head, form)?;
    let last = read_all(form, reader, writer, input, output)?;
    let after = at_edge(writer, Edge::Foot, form)?;
    let handed = before + last.handed + after;
    Ok(Turn {
        reading: last.reading,
        count: last.count,
        handed,
    })
}

// Hands over what stands at an edge of an output.
fn at_edge<W: Write>(writer: &mut W, edge: Edge, form: Form) -> io::Result<usize>
    ensures value { IfOk result (λ bytes. bytes ≡ length (edge_text edge form)) }
    ensures written { OnOk result (Appends (W.contents writer.old) (W.contents writer.new) (edge_text edge form)) }
{
    handed_over(writer, edge_text(edge, form))
}

fn edge_text(edge: Edge, form: Form) -> &'static [u8]
    ensures { result.now ≡ edge_text edge form }
{
    // a match, since a form is data, chosen when the program runs
    match (form, edge) {
        (Form::Numbers, _) => b"",
        (Form::Waypoints, Edge::Head) =>
            b"<?xml version=\"1.0\" encoding=\"UTF-8\"?>\n<gpx version=\"1.1\" creator=\"Buckettin\" xmlns=\"http://www.topografix.com/GPX/1/1\">\n",
        (Form::Waypoints, Edge::Foot) => b"</gpx>\n",
    }
}

// Reads and answers until no byte comes or none may be taken any more. The answer counts the bytes of the last read, and those that
// were handed over for all: with the head and the foot these are the output's.
fn read_all<R: Read, W: Write>(
    form: Form,
    reader: &mut R,
    writer: &mut W,
    input: &mut [u8; INPUT],
    output: &mut [u8; OUTPUT],
) -> Result<Turn, Failure>
    ensures ended { IfOk result (λ last. Ended form last (length (head form) + last.handed + length (foot form))) }
    ensures written { OnOk result (WritesLines form (R.remaining reader.old) (W.contents writer.old) (W.contents writer.new)) }
{
    let mut reading = Reading::start(form);
    let mut handed = 0;
    // no `for`: how many turns there are is known by the last read
    loop {
        let turn = read(reading, reader, writer, input, output)?;
        reading = turn.reading;
        handed += turn.handed;
        let count = turn.count;
        if count.min(reading.left()) == 0 {
            let last = end(reading, writer, output)?;
            return Ok(Turn {
                reading,
                count,
                handed: handed + last,
            });
        }
    }
}

// Reads once, at most so many bytes as may be taken, and answers the lines that end in them.
fn read<R: Read, W: Write>(
    reading: Reading,
    reader: &mut R,
    writer: &mut W,
    input: &mut [u8; INPUT],
    output: &mut [u8; OUTPUT],
) -> Result<Turn, Failure>
    requires { 0 < reading.left }
    ensures answered { IfOk result (λ turn. (turn.count ≤ length input.new)
        × Answered reading (take turn.count input.new) turn.reading turn.handed) }
    ensures consumed { IfOk result (λ turn. Consumes (R.remaining reader.old) (R.remaining reader.new) (take turn.count input.new)) }
    ensures end { IfOk result (λ turn. turn.count ≡ 0 → IsAtEnd (R.remaining reader.new)) }
    ensures written { IfOk result (λ turn. Appends (W.contents writer.old) (W.contents writer.new)
        (answers reading.form (held reading.begun) (take turn.count input.new))) }
{
    let most = reading.left().min(INPUT);
    let got = reader.read(&mut input[..most]);
    turned(got, reading, writer, &input[..most], output)
}

// What becomes of a read into a piece that is not empty: the bytes that it gave are answered, unless it failed. To give none, at
// the end of the input, is no failure. How long the piece may be a clause says, here and below: it is a part of an array.
fn turned<W: Write>(
    got: io::Result<usize>,
    reading: Reading,
    writer: &mut W,
    piece: &[u8],
    output: &mut [u8; OUTPUT],
) -> Result<Turn, Failure>
    requires piece_nonzero { 0 < length piece.now }
    requires piece_len_bound { (length piece.now ≤ reading.left) × (length piece.now ≤ 65536) }
    requires moved { IfOk got (λ count. count ≤ length piece.now) }
    ensures no_bytes { got ≡ Ok 0 → IsOk result }
    ensures unread { IsErrOf result Failure.Unread ↔ IsErr got }
    ensures answered { IfOk result (λ turn. (got ≡ Ok turn.count)
        × Answered reading (take turn.count piece.now) turn.reading turn.handed) }
    ensures written { IfOk result (λ turn. Appends (W.contents writer.old) (W.contents writer.new)
        (answers reading.form (held reading.begun) (take turn.count piece.now))) }
{
    match got {
        Ok(count) => Ok(answer(reading, writer, &piece[..count], output)?),
        Err(_) => Err(Failure::Unread),
    }
}

// Answers the lines that end in a piece of the input, as much of it at a time as the output has room for.
fn answer<W: Write>(
    reading: Reading,
    writer: &mut W,
    piece: &[u8],
    output: &mut [u8; OUTPUT],
) -> io::Result<Turn>
    requires { (length piece.now ≤ reading.left) × (length piece.now ≤ 65536) }
    ensures no_bytes { length piece.now ≡ 0 → IsOk result }
    ensures answered { IfOk result (λ turn. (turn.count ≡ length piece.now)
        × Answered reading piece.now turn.reading turn.handed) }
    ensures written { OnOk result (Appends (W.contents writer.old) (W.contents writer.new)
        (answers reading.form (held reading.begun) piece.now)) }
{
    let mut next = reading;
    let mut from = 0;
    let mut handed = 0;
    // no `for`: each turn goes on by what was taken
    while from < piece.len() {
        let fed = stream::feed(next, &piece[from..], output);
        let put = fed.put;
        let to = from + fed.taken;
        handed += write(next, writer, &piece[from..to], &output[..put])?;
        next = fed.reading;
        from = to;
    }
    let turn = Turn {
        reading: next,
        count: from,
        handed,
    };
    Ok(turn)
}

// Ends the input: answers a last line with bytes but no line feed.
fn end<W: Write>(reading: Reading, writer: &mut W, output: &mut [u8; OUTPUT]) -> io::Result<usize>
    ensures in_bounds { IfOk result (λ bytes. bytes ≤ length output.new) }
    ensures value { IfOk result (λ bytes. bytes ≡ length (answers reading.form (held reading.begun) (closing (held reading.begun)))) }
    ensures written { OnOk result (Appends (W.contents writer.old) (W.contents writer.new)
        (answers reading.form (held reading.begun) (closing (held reading.begun)))) }
{
    let line_feed = [b'\n'];
    let fed = stream::finish(reading, output);
    let taken = fed.taken;
    let put = fed.put;
    write(reading, writer, &line_feed[..taken], &output[..put])
}

// Hands over the answers of the lines that end in some bytes, all of them and from the start. Whatever the writer is, and whatever
// becomes of it, no other bytes are handed over for these.
fn write<W: Write>(reading: Reading, writer: &mut W, bytes: &[u8], put: &[u8]) -> io::Result<usize>
    requires { put.now ≡ answers reading.form (held reading.begun) bytes.now }
    ensures in_bounds { IfOk result (λ count. count ≤ length put.now) }
    ensures value { IfOk result (λ count. count ≡ length (answers reading.form (held reading.begun) bytes.now)) }
    ensures written { OnOk result (Appends (W.contents writer.old) (W.contents writer.new)
        (answers reading.form (held reading.begun) bytes.now)) }
{
    handed_over(writer, put)
}

// Hands over some bytes, all of them and from the start. By itself, so that no other bytes are at hand here.
fn handed_over<W: Write>(writer: &mut W, put: &[u8]) -> io::Result<usize>
    ensures value { IfOk result (λ count. count ≡ length put.now) }
    ensures written { OnOk result (Appends (W.contents writer.old) (W.contents writer.new) put.now) }
{
    writer.write_all(put)?;
    Ok(put.len())
}
