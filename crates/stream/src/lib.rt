// An input that comes in pieces, a line of it at a time: what is begun of a line is carried from piece to piece, and how many more
// bytes may be taken; and in which form its lines are answered.
#![tactic(auto)]

ghost use Rattle.std.specs.Prelude.{◌≡◌, true, [], ◌++◌, ◌+◌, ◌%◌, ◌<◌, ◌≤◌, length, take, drop, slice_set};
ghost use Rattle.whole.specs.Digits.{byte_of};
ghost use Rattle.kinds.specs.Answer.{number_of};
ghost use Rattle.line.specs.declared.Form.TheVariants.{Numbers, Waypoints};
ghost use Rattle.stream.specs.Stream.{refused_line, printed, held, kept, started, after, at_end, taken_of, answers, closing};
ghost use Rattle.stream.specs.Inside.{first, first_feed, Clear, Tells, end_for};

use kinds::Refusal;
use line::{Form, LINE, WAYPOINT};

// The first bytes of a line whose line feed has not come. Of a longer line 27 are kept, which are refused as it is. An array and a
// count, since memory is fixed, with no heap.
#[derive(Clone, Copy)]
pub struct Begun {
    bytes: [u8; KEPT],
    count: usize,
}

// An input that is being read: the form of its answers, the line that is begun, and how many more bytes of it may be taken.
#[derive(Clone, Copy)]
pub struct Reading {
    form: Form,
    begun: Begun,
    left: usize,
}

// What a call took and put, and the reading after it.
#[derive(Clone, Copy)]
pub struct Fed {
    pub reading: Reading,
    pub taken: usize,
    pub put: usize,
}

// the most bytes that are taken of an input
const LIMIT: usize = 100_000_000;

// the most bytes that are kept of a line: enough to see that it is too long
const KEPT: usize = LINE + 1;

// the bytes among which most lines have their line feed, with a carriage return before it or not
const NEAR: usize = LINE + 2;

// bytes that are tested for a line feed together
const WORD: usize = 8;

const BLOCK: usize = 128;

// No line is begun. By hand, since it says which state this is.
impl Default for Begun {
    ghost is_default = { λ begun. begun ≡ kept [] };

    #[tactic(auto, unfolding(crate::specs::Stream::kept))]
    fn default() -> Begun {
        Begun {
            bytes: [0; KEPT],
            count: 0,
        }
    }
}

impl Reading {
    // Nothing of the input is taken yet.
    pub fn start(form: Form) -> Reading
        ensures { result ≡ started form }
    {
        Reading {
            form,
            begun: Begun::default(),
            left: LIMIT,
        }
    }

    // How many more bytes may be taken.
    pub fn left(self) -> usize
        ensures { result ≡ self.left }
    {
        self.left
    }
}

// Takes the next bytes of an input, as far as they may be taken and for as many lines as out has room for, at 48 bytes each. Puts
// the answers of the lines that end in them at the start of out, a line each. The last clause follows from the others: it is what
// lending `&out[..put]` asks of a caller.
pub fn feed(reading: Reading, bytes: &[u8], out: &mut [u8]) -> Fed
    ensures taken_value { result.taken ≡ taken_of (take reading.left bytes.now) (length out.old) }
    ensures reading_value { result.reading ≡ after reading (take result.taken bytes.now) }
    ensures put_value { result.put ≡ length (answers reading.form (held reading.begun) (take result.taken bytes.now)) }
    ensures out_after { out.new ≡ answers reading.form (held reading.begun) (take result.taken bytes.now) ++ drop result.put out.old }
    ensures put_in_bounds { (result.put ≤ length out.new) × (result.put ≡ length (take result.put out.new)) }
{
    let form = reading.form;
    let left = reading.left;
    let most = left.min(bytes.len());
    let mut line = reading.begun;
    let mut lines = out.len() / WAYPOINT;
    let mut from = 0;
    let mut put = 0;
    // no `for`: each turn goes on after a line feed that it finds
    'lines: loop {
        let to = end_for(lines, from, most);
        let rest = &bytes[from..to];
        let Some(end) = line_feed(rest) else {
            let left = left - to;
            return Fed {
                reading: Reading {
                    form,
                    begun: extended(line, rest),
                    left,
                },
                taken: to,
                put,
            };
        };
        put += ended(form, line, &rest[..end], &mut out[put..]);
        line.count = 0;
        lines -= 1;
        from += end + 1;
    }
}

// Ends an input: a last line with bytes but no line feed is given one, and is answered where out has room for 48 bytes. What is
// taken is that line feed, and nothing more may be.
pub fn finish(reading: Reading, out: &mut [u8]) -> Fed
    ensures taken_value { result.taken ≡ taken_of (closing (held reading.begun)) (length out.old) }
    ensures reading_value { result.reading ≡ at_end (after reading (take result.taken (closing (held reading.begun)))) }
    ensures put_value { result.put ≡ length (answers reading.form (held reading.begun) (take result.taken (closing (held reading.begun)))) }
    ensures out_after { out.new ≡ answers reading.form (held reading.begun) (take result.taken (closing (held reading.begun))) ++ drop result.put out.old }
    ensures put_in_bounds { (result.put ≤ length out.new) × (result.put ≡ length (take result.put out.new)) }
{
    let form = reading.form;
    let begun = reading.begun;
    // one byte, where a line is begun
    let left = begun.count.min(1);
    let fed = feed(Reading { form, begun, left }, b"\n", out);
    let last = fed.reading;
    let begun = last.begun;
    Fed {
        reading: Reading {
            form,
            begun,
            left: 0,
        },
        taken: fed.taken,
        put: fed.put,
    }
}

// Where the first line feed is, if one is. Before the line feed of most lines are 26 bytes, or 27 with a carriage return: so 24 are
// tested as words, and four by themselves. A longer line is searched by blocks, and those in which a line feed may be by words.
fn line_feed(bytes: &[u8]) -> Option<usize>
    ensures { result ≡ first_feed bytes.now }
{
    let Some((near, rest)) = bytes.split_first_chunk::<NEAR>() else {
        return by_words(bytes);
    };
    let (words, last) = near.as_chunks::<WORD>();
    if !are_clear(words) {
        return by_words(bytes);
    }
    if let Some(at) = find(last, b'\n') {
        return Some(words.len() * WORD + at);
    }
    Some(NEAR + by_pieces::<BLOCK, _>(rest, by_words)?)
}

// The same, by words, and where a line feed may be, by bytes.
fn by_words(bytes: &[u8]) -> Option<usize>
    ensures { result ≡ first_feed bytes.now }
{
    by_pieces::<WORD, _>(bytes, |part| find(part, b'\n'))
}

// The same, by pieces of whole words, and where a line feed may be in one, as the parameter finds it.
fn by_pieces<const N: usize, F: Fn(&[u8]) -> Option<usize>>(
    bytes: &[u8],
    find_in: F,
) -> Option<usize>
    requires size { (0 < N) × (N ≤ 128) × (N % 8 ≡ 0) }
    requires callable { F.IsAlwaysCallable find_in }
    requires finds { (part : _) (found : _) → F.post find_in part found → found ≡ first_feed part.now }
    ensures { result ≡ first_feed bytes.now }
{
    let (pieces, rest) = bytes.as_chunks::<N>();
    for (i, piece) in pieces.iter().enumerate() {
        let (words, _) = piece.as_chunks::<WORD>();
        let clear = are_clear(words);
        if !clear {
            if let Some(at) = find_in(piece) {
                return Some(i * N + at);
            }
        }
    }
    Some(pieces.len() * N + find_in(rest)?)
}

// Where the first such byte is, if one is.
fn find(bytes: &[u8], byte: u8) -> Option<usize>
    ensures { result ≡ first byte bytes.now }
{
    bytes.iter().position(|other| *other == byte)
}

// That no line feed is in some words. Each is tested, whatever the others say: so the compiler tests two at a time.
fn are_clear(words: &[[u8; WORD]]) -> bool
    ensures { Tells result words.now }
{
    words
        .iter()
        .fold(true, |clear, word| clear & is_clear(*word))
}

// That no line feed is in a word; where 0x8A is in it, which is a line feed with a bit more, this is not said either. The first
// constant turns the lower seven bits of both, and of no other byte, into ones, so that with 1 more they have an eighth; no byte
// carries into the next.
fn is_clear(bytes: [u8; WORD]) -> bool
    ensures { result ≡ true → Clear bytes }
{
    let word = u64::from_le_bytes(bytes);
    let marked = ((word ^ 0x7575_7575_7575_7575) & 0x7F7F_7F7F_7F7F_7F7F) + 0x0101_0101_0101_0101;
    marked & 0x8080_8080_8080_8080 == 0
}

// Where the bytes end that may be taken: at the place itself, where there is room for no line more.
fn end_for(lines: usize, from: usize, most: usize) -> usize
    ensures { result ≡ end_for lines from most }
{
    if lines == 0 {
        return from;
    }
    most
}

// The line that is begun once more bytes have come, with no line feed among them.
#[tactic(auto, using(crate::proofs::Keeping::extended_is))]
fn extended(begun: Begun, more: &[u8]) -> Begun
    ensures { result ≡ kept (held begun ++ more.now) }
{
    let held = begun.bytes;
    // no state that this crate makes has a higher count; a ghost field would say so, but `kept` in specs/, which makes a state,
    // would then have a proof in it
    let first = begun.count.min(KEPT);
    let mut bytes = [0; KEPT];
    kinds::copy(&held[..first], &mut bytes);
    let second = more.len().min(KEPT - first);
    kinds::copy(&more[..second], &mut bytes[first..]);
    Begun {
        bytes,
        count: first + second,
    }
}

// Prints the line that the rest ends. Here and below, how much room is asked depends on the line: no type says it.
fn ended(form: Form, begun: Begun, rest: &[u8], out: &mut [u8]) -> usize
    requires { length (printed form (held begun ++ rest.now)) ≤ length out.old }
    ensures value { result ≡ length (printed form (held begun ++ rest.now)) }
    ensures out_after { out.new ≡ printed form (held begun ++ rest.now) ++ drop result out.old }
{
    if begun.count == 0 {
        return printed(form, rest, out);
    }
    let whole = extended(begun, rest);
    let bytes = whole.bytes;
    let count = whole.count;
    printed(form, &bytes[..count], out)
}

// Prints a line's answer, or that it is refused and the number.
fn printed(form: Form, line: &[u8], out: &mut [u8]) -> usize
    requires { length (printed form line.now) ≤ length out.old }
    ensures value { result ≡ length (printed form line.now) }
    ensures out_after { out.new ≡ printed form line.now ++ drop result out.old }
{
    match line::line_in(form, line, out) {
        Ok(count) => count,
        Err(why) => refused(form, why, out),
    }
}

// Prints that a line is refused.
#[tactic(auto, unfolding(crate::specs::Stream::refused_line))]
fn refused(form: Form, why: Refusal, out: &mut [u8]) -> usize
    requires { length (refused_line form (number_of why)) ≤ length out.old }
    ensures value { result ≡ length (refused_line form (number_of why)) }
    ensures out_after { out.new ≡ refused_line form (number_of why) ++ drop result out.old }
{
    // a match, since a form is data, chosen when the program runs; with one copy after it a refused line takes 14 to 30 % more
    // instructions
    match form {
        Form::Numbers => kinds::copy(&numbered(b"refused 0\n", 8, why), out),
        Form::Waypoints => kinds::copy(&numbered(b"<!-- refused 0 -->\n", 13, why), out),
    }
}

// A text with the digit of a refusal's number at a place.
#[tactic(auto, using(kinds::proofs::Demands::numbers_tabled))]
fn numbered<const N: usize>(text: &[u8; N], at: usize, why: Refusal) -> [u8; N]
    requires { at < N }
    ensures { result ≡ slice_set text.now at (byte_of (number_of why)) }
{
    let mut line = *text;
    line[at] = b'0' + why.number();
    line
}
