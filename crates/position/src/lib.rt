// A position as text, read and written: `ddmmss.sssN` or `S` for a latitude, `dddmmss.sssE` for a longitude.
// A longitude's text is a digit, for hundreds of degrees, and then a text of a latitude's form: so the work is done once.
#![tactic(auto)]

ghost use Rattle.std.specs.Prelude.{◌≡◌, ◌+◌, ◌%◌, ◌<◌, ◌≤◌, true, not, length, pos, neg_ℤ, ◌==◌, false, IfOk, MatchOption};
ghost use Rattle.whole.specs.Digits.{is_digit, digit_of, from_digits};
ghost use Rattle.kinds.specs.Answer.{provided, counted, lent};
ghost use Rattle.kinds.specs.Cases.{local_latitude, local_longitude, said, written};
ghost use Rattle.kinds.specs.Kinds.{is_latitude, tested};
ghost use Rattle.position.specs.Inside.{figures, InPairs, angle_said};
ghost use Rattle.position.specs.Text.{latitude, longitude, degrees, is_angle, in_sixties, angle, read, spelled, write};

use kinds::{LocalLatitude, LocalLongitude, Refusal, put};
use whole::last_digit;

// Reads the 11 bytes `ddmmss.sssN` or `S` into ms, north positive: `900000.000N` is 324000000. Refused: 1 another length, 2 a
// byte that is not of its kind, 3 minutes or seconds from 60 up, past 90°, or S after zero.
#[tactic(auto, using(crate::proofs::Reading::wrong_length))]
pub fn read_latitude(text: &[u8]) -> Result<LocalLatitude, Refusal>
    ensures { local_latitude result ≡ read latitude text.now }
{
    let Some(text) = text.as_array::<LATITUDE_BYTES>() else {
        return Err(Refusal::Length);
    };
    let letter = text[10];
    if !((letter == b'N') | (letter == b'S')) {
        return Err(Refusal::Kind);
    }
    let ms = read_angle(text)?;
    if letter == b'S' {
        return southern(ms);
    }
    LocalLatitude::new(ms as i64)
}

// Reads the 12 bytes `dddmmss.sssE` into ms, east positive: `0330000.000E` is 118800000. Refused: 1 another length, 2 a byte
// that is not of its kind, 3 minutes or seconds from 60 up, or from 360° up. Beside `read_latitude`, since C has a name for each:
// what is left in the two are the length, the letters, S after zero and the hundreds.
#[tactic(auto, using(crate::proofs::Reading::wrong_length))]
pub fn read_longitude(text: &[u8]) -> Result<LocalLongitude, Refusal>
    ensures { local_longitude result ≡ read longitude text.now }
{
    let Some(text) = text.as_array::<LONGITUDE_BYTES>() else {
        return Err(Refusal::Length);
    };
    let hundreds = text[0];
    // proved to be there, and not tested; by `split_first` the length is tested twice, four instructions more
    let rest = text[1..].as_array::<LATITUDE_BYTES>().unwrap();
    let letter = rest[10];
    if !(is_digit(hundreds) & (letter == b'E')) {
        return Err(Refusal::Kind);
    }
    let ms = read_angle(rest)?;
    LocalLongitude::new((digit(hundreds) * HUNDRED_DEGREES + ms) as i64)
}

// Writes a latitude in ms to the first 11 bytes of out: -1 is `000000.001S`. Refused: 3 past 90°, 7 out is shorter.
pub fn write_latitude(ms: i64, out: &mut [u8]) -> Result<usize, Refusal>
    ensures result_value { written result ≡ counted (write latitude ms (length out.old)) }
    ensures out_after { out.new ≡ lent (write latitude ms (length out.old)) out.old }
{
    LocalLatitude::new(ms)?;
    let mut letter = b'N';
    if ms < 0 {
        letter = b'S';
    }
    let line = spelled(ms.unsigned_abs(), letter);
    put(&line[1..], out)
}

// Writes a longitude in ms to the first 12 bytes of out: 118800000 is `0330000.000E`. Refused: 3 below 0 or from 360° up, 7
// out is shorter. Beside `write_latitude`, since C has a name for each: what is left in the two are the kind, the letter and the
// first digit.
pub fn write_longitude(ms: i64, out: &mut [u8]) -> Result<usize, Refusal>
    ensures result_value { written result ≡ counted (write longitude ms (length out.old)) }
    ensures out_after { out.new ≡ lent (write longitude ms (length out.old)) out.old }
{
    LocalLongitude::new(ms)?;
    let line = spelled(ms.unsigned_abs(), b'E');
    put(&line, out)
}

const LATITUDE_BYTES: usize = 11;

const LONGITUDE_BYTES: usize = 12;

// ms, unsigned
const SECOND: u64 = LocalLatitude::SECOND as u64;

const MINUTE: u64 = LocalLatitude::MINUTE as u64;

const DEGREE: u64 = LocalLatitude::DEGREE as u64;

const HUNDRED_DEGREES: u64 = 100 * DEGREE;

// the bits of `figures` that are none where its bytes are digits and a point
const NO_FIGURE: u64 = 0xF0F0_F0F0_FFF0_F0F0;

// where they stand in the word of `pairs`
const MINUTES: u64 = 281_474_976_710_656;

const SECONDS: u64 = 4_294_967_296;

const TENTHS: u64 = 65_536;

// A digit, by the library's test: in one place for the bytes of both texts that are tested one by one.
fn is_digit(b: u8) -> bool
    ensures { result ≡ is_digit b }
{
    b.is_ascii_digit()
}

// What a digit says. Each is widened first: by `u64::from(b - b'0')` a reading takes two instructions more.
#[tactic(auto, using(whole::proofs::Digits::digit_limits), unfolding(whole::specs::Digits::digit_of))]
fn digit(b: u8) -> u64
    requires { is_digit b ≡ true }
    ensures value { result ≡ digit_of b }
    ensures upper_bound { result < 10 }
{
    u64::from(b) - u64::from(b'0')
}

// Of the bytes of a latitude's form: the ms that those before the letter say.
fn read_angle(text: &[u8; LATITUDE_BYTES]) -> Result<u64, Refusal>
    ensures value { said result ≡ angle_said text.now }
    ensures upper_bound { IfOk result (λ ms. ms < 400000000) }
{
    let Some(digits) = Digits::of(text) else {
        return Err(Refusal::Kind);
    };
    if !digits.in_sixties() {
        return Err(Refusal::Range);
    }
    Ok(digits.angle())
}

// A text of which the bytes before the letter are digits and a point, and its figures. Only `of` makes one.
#[derive(Clone, Copy)]
struct Digits<'a> {
    text: &'a [u8; LATITUDE_BYTES],
    word: u64,
    ghost long: { length text.now ≡ 11 },
    ghost are: { is_angle latitude text.now ≡ true },
    ghost word_is: { word ≡ figures text.now },
}

impl Digits<'_> {
    // A digit is 0x30 to 0x39, so what `figures` leaves of it is below 16, and still is with 6 more; of the point it leaves
    // nothing. A byte that carries into the next is none of these itself. Both tests of the word are one expression, and the
    // compiler makes one test of them.
    fn of(text: &[u8; LATITUDE_BYTES]) -> Option<Digits<'_>>
        ensures { MatchOption result (is_angle latitude text.now ≡ false) (λ digits. digits.text.now ≡ text.now) }
    {
        let word = figures(text);
        let more = std::num::wrapping_add_u64(word, 0x0606_0606_0006_0606);
        if !((word & NO_FIGURE == 0) & (more & NO_FIGURE == 0)) {
            return None;
        }
        if !(is_digit(text[0]) & is_digit(text[1])) {
            return None;
        }
        Some(Digits { text, word })
    }

    // Minutes and seconds are below 60: their tens are below 16 with 10 more. The last 1 makes the sum one of all eight bytes; a
    // compiler that finds it to be of three reads these apart.
    #[tactic(auto, using(crate::proofs::OneWord::tens_fit, crate::proofs::OneWord::sixties))]
    fn in_sixties(self) -> bool
        ensures { result ≡ in_sixties latitude self.entry.text.now }
    {
        (self.word + 0x0A00_0A00_0000_0001) & 0x1000_1000_0000_0000 == 0
    }

    // The ms that they say.
    #[tactic(auto, unfolding(crate::specs::Text::angle))]
    fn angle(self) -> u64
        ensures value { result ≡ angle latitude self.entry.text.now }
        ensures upper_bound { result < 400_000_000 }
    {
        let word = self.pairs();
        self.degrees() * DEGREE
            + word / MINUTES % 256 * MINUTE
            + word / SECONDS % 256 * SECOND
            + (word / TENTHS % 256 * 100 + word % 256)
    }

    fn degrees(self) -> u64
        ensures value { result ≡ from_digits (degrees latitude self.entry.text.now) }
        ensures upper_bound { result < 100 }
    {
        digit(self.text[0]) * 10 + digit(self.text[1])
    }

    // To each byte ten times the byte before it is added, so that every other byte says two digits.
    fn pairs(self) -> u64
        ensures { InPairs result self.entry.text.now }
    {
        self.word / 256 * 10 + self.word
    }
}

// The eight bytes `mmss.sss` in one word, less the bits of `0000.000`.
#[tactic(auto, using(crate::proofs::OneWord::figures_read))]
fn figures(text: &[u8; LATITUDE_BYTES]) -> u64
    ensures { result ≡ figures text.now }
{
    u64::from_be_bytes([
        text[2], text[3], text[4], text[5], text[6], text[7], text[8], text[9],
    ]) ^ 0x3030_3030_2E30_3030
}

// S is below zero, and not zero.
fn southern(ms: u64) -> Result<LocalLatitude, Refusal>
    requires { ms ≤ 1_296_000_000 }
    ensures { local_latitude result ≡ provided (not (ms == 0)) 3 (tested (is_latitude (neg_ℤ (pos ms))) (neg_ℤ (pos ms))) }
{
    if ms == 0 {
        return Err(Refusal::Range);
    }
    LocalLatitude::new(-(ms as i64))
}

// ms as `dddmmss.sss`, and the letter; by hand, as all that is printed (`decimal`). A latitude's text is this without its first
// digit. The last two of three digits are made of the rest by 100, which takes a division less.
fn spelled(ms: u64, letter: u8) -> [u8; 12]
    ensures { result ≡ spelled longitude ms letter }
{
    let thousandths = ms % SECOND;
    let seconds = ms / SECOND % 60;
    let minutes = ms / SECOND / 60 % 60;
    let degrees = ms / SECOND / 60 / 60;
    [
        last_digit(degrees / 100),
        last_digit(degrees % 100 / 10),
        last_digit(degrees % 100),
        last_digit(minutes / 10),
        last_digit(minutes),
        last_digit(seconds / 10),
        last_digit(seconds),
        b'.',
        last_digit(thousandths / 100),
        last_digit(thousandths % 100 / 10),
        last_digit(thousandths % 100),
        letter,
    ]
}
