// The kinds of quantity: latitude and longitude on the local datum, each and as a position, and on WGS 84, the shift of an
// angle, and height; why a call is refused; and a text put into a lent buffer. Outside this crate a kind is made by `new`, which
// tests a raw number (a shift and a height also by `from` 4 bytes, any of which are one; a WGS 84 position also by
// `shifted`, which does not test), and read by a method: code that takes one kind, or a bare number, for another kind does not
// build. Each is a tuple struct with limits, a constructor and a reader of its own, and they are not made of one: document 01 names
// this form.
#![tactic(auto)]

ghost use Rattle.std.specs.Prelude.{◌≡◌, ◌≤◌, ◌++◌, drop, length};
ghost use Rattle.kinds.specs.Answer.{gives, provided, number_of, placed, counted, lent};
ghost use Rattle.kinds.specs.Cases.{local_latitude, local_longitude, local_position, wgs84_latitude, wgs84_longitude, angle_shift, height, said, written};
ghost use Rattle.kinds.specs.Kinds.{within, is_latitude, is_longitude, is_position, is_wgs84_latitude, is_wgs84_longitude, is_four_bytes, tested, converted};

// Why a call is refused, in the order of document 01's numbers.
#[derive(Clone, Copy, Debug, PartialEq, Eq, PartialOrd, Ord, Hash)]
pub enum Refusal {
    // a text, line or sheet has the wrong length
    Length,
    // a byte of a text or line is not of its kind
    Kind,
    // a latitude, longitude, minute or second is out of range
    Range,
    // the code is not 1 to 6
    Code,
    // a shift is asked of code 5 or 6, or a geoid height of code 1 to 4
    Family,
    // the point is outside its datum's area
    Area,
    // the lent buffer is too short
    Room,
    // the sheet's serial is not zero and not the unit's
    Foreign,
    // the sheet's serial is zero, a count is over its limit, codes do not rise or are not 1 to 6, or a point's code is not listed
    Sheet,
}

impl Refusal {
    // Document 01's number, 1 to 9: a table of its own, line by line as `number_of` of specs/ has it, and no discriminants.
    pub fn number(self) -> u8
        ensures { result ≡ number_of self }
    {
        match self {
            Refusal::Length => 1,
            Refusal::Kind => 2,
            Refusal::Range => 3,
            Refusal::Code => 4,
            Refusal::Family => 5,
            Refusal::Area => 6,
            Refusal::Room => 7,
            Refusal::Foreign => 8,
            Refusal::Sheet => 9,
        }
    }
}

// Puts a text at the start of a lent buffer, and says how many bytes it has. Refused: 7 the buffer is shorter.
pub fn put(text: &[u8], out: &mut [u8]) -> Result<usize, Refusal>
    ensures result_value { written result ≡ counted (placed text.now (length out.old)) }
    ensures out_after { out.new ≡ lent (placed text.now (length out.old)) out.old }
{
    if out.len() < text.len() {
        return Err(Refusal::Room);
    }
    Ok(copy(text, out))
}

// Copies bytes to the start of a buffer that has room for them. How many they are.
pub fn copy(bytes: &[u8], out: &mut [u8]) -> usize
    requires { length bytes.now ≤ length out.old }
    ensures value { result ≡ length bytes.now }
    ensures out_after { out.new ≡ bytes.now ++ drop result out.old }
{
    let count = bytes.len();
    out[..count].copy_from_slice(bytes);
    count
}

// Latitude on the local datum, in ms (thousandths of an arc second), north positive.
#[derive(Clone, Copy)]
pub struct LocalLatitude(i32);

impl LocalLatitude {
    // ms in a second, a minute and a degree
    pub const SECOND: i64 = 1_000;

    pub const MINUTE: i64 = 60 * LocalLatitude::SECOND;

    pub const DEGREE: i64 = 60 * LocalLatitude::MINUTE;

    // at the north pole
    pub const LARGEST: i64 = 90 * LocalLatitude::DEGREE;

    // From -LARGEST to LARGEST; refused with 3 outside.
    pub fn new(ms: i64) -> Result<LocalLatitude, Refusal>
        ensures { local_latitude result ≡ tested (is_latitude ms) ms }
    {
        let ms = ranged(-LocalLatitude::LARGEST, LocalLatitude::LARGEST, ms)?;
        Ok(LocalLatitude(ms as i32))
    }

    pub fn ms(self) -> i32
        ensures { result ≡ self.0 }
    {
        let LocalLatitude(ms) = self;
        ms
    }

    // Where a shift leads. Past a pole it is not refused.
    pub fn shifted(self, by: AngleShift) -> Wgs84Latitude
        ensures { result.0 ≡ converted self.0 by.0 }
    {
        Wgs84Latitude(converted(self.0, by))
    }
}

// Longitude on the local datum, in ms, east positive.
#[derive(Clone, Copy)]
pub struct LocalLongitude(i32);

impl LocalLongitude {
    // 360°, which is written 0
    pub const TURN: i64 = 360 * LocalLatitude::DEGREE;

    // From 0 up to TURN, which is out; refused with 3 outside.
    pub fn new(ms: i64) -> Result<LocalLongitude, Refusal>
        ensures { local_longitude result ≡ tested (is_longitude ms) ms }
    {
        let ms = ranged(0, LocalLongitude::TURN - 1, ms)?;
        Ok(LocalLongitude(ms as i32))
    }

    pub fn ms(self) -> i32
        ensures { result ≡ self.0 }
    {
        let LocalLongitude(ms) = self;
        ms
    }

    // Where a shift leads. Below 0 or from a turn up it is not wrapped.
    pub fn shifted(self, by: AngleShift) -> Wgs84Longitude
        ensures { result.0 ≡ converted self.0 by.0 }
    {
        Wgs84Longitude(converted(self.0, by))
    }
}

// A position on the local datum.
#[derive(Clone, Copy)]
pub struct LocalPosition {
    pub latitude: LocalLatitude,
    pub longitude: LocalLongitude,
}

impl LocalPosition {
    // Refused with 3 where the one or the other is out of range.
    pub fn new(latitude: i64, longitude: i64) -> Result<LocalPosition, Refusal>
        ensures { local_position result ≡ provided (is_position latitude longitude) 3 (gives (latitude, longitude)) }
    {
        let north = LocalLatitude::new(latitude)?;
        let east = LocalLongitude::new(longitude)?;
        Ok(LocalPosition {
            latitude: north,
            longitude: east,
        })
    }

    // Where the shifts of its latitude and of its longitude lead.
    pub fn shifted(self, north: AngleShift, east: AngleShift) -> Wgs84Position
        ensures latitude_value { result.latitude.0 ≡ converted self.latitude.0 north.0 }
        ensures longitude_value { result.longitude.0 ≡ converted self.longitude.0 east.0 }
    {
        let latitude = self.latitude;
        let longitude = self.longitude;
        Wgs84Position {
            latitude: latitude.shifted(north),
            longitude: longitude.shifted(east),
        }
    }
}

// The shift of an angle from the local datum to WGS 84, in 0.00001".
#[derive(Clone, Copy)]
pub struct AngleShift(i32);

impl AngleShift {
    // units in a ms
    pub const PER_MS: i64 = 100;

    // units in a second
    pub const PER_SECOND: f64 = (AngleShift::PER_MS * LocalLatitude::SECOND) as f64;

    // what a signed 4-byte number holds
    pub const LEAST: i64 = i32::MIN as i64;

    pub const LARGEST: i64 = i32::MAX as i64;

    // From LEAST to LARGEST; refused with 3 outside.
    pub fn new(units: i64) -> Result<AngleShift, Refusal>
        ensures { angle_shift result ≡ tested (is_four_bytes units) units }
    {
        let units = ranged(AngleShift::LEAST, AngleShift::LARGEST, units)?;
        Ok(AngleShift(units as i32))
    }

    pub fn units(self) -> i32
        ensures { result ≡ self.0 }
    {
        let AngleShift(units) = self;
        units
    }
}

// Of a number that is held in 4 bytes already, and needs no test.
impl From<i32> for AngleShift {
    ghost from_gives = { λ units made. made.0 ≡ units };

    fn from(units: i32) -> AngleShift {
        AngleShift(units)
    }
}

// A height or its shift, in mm.
#[derive(Clone, Copy)]
pub struct Height(i32);

impl Height {
    // mm in a metre
    pub const PER_METRE: f64 = 1_000.0;

    // what a signed 4-byte number holds
    pub const LEAST: i64 = i32::MIN as i64;

    pub const LARGEST: i64 = i32::MAX as i64;

    // From LEAST to LARGEST; refused with 3 outside.
    pub fn new(mm: i64) -> Result<Height, Refusal>
        ensures { height result ≡ tested (is_four_bytes mm) mm }
    {
        let mm = ranged(Height::LEAST, Height::LARGEST, mm)?;
        Ok(Height(mm as i32))
    }

    pub fn mm(self) -> i32
        ensures { result ≡ self.0 }
    {
        let Height(mm) = self;
        mm
    }
}

// Of a number that is held in 4 bytes already, and needs no test.
impl From<i32> for Height {
    ghost from_gives = { λ mm made. made.0 ≡ mm };

    fn from(mm: i32) -> Height {
        Height(mm)
    }
}

// Latitude on WGS 84, in 0.00001", north positive.
#[derive(Clone, Copy)]
pub struct Wgs84Latitude(i64);

impl Wgs84Latitude {
    pub const LARGEST: i64 = AngleShift::PER_MS * LocalLatitude::LARGEST;

    // From -LARGEST to LARGEST; refused with 3 outside.
    pub fn new(units: i64) -> Result<Wgs84Latitude, Refusal>
        ensures { wgs84_latitude result ≡ tested (is_wgs84_latitude units) units }
    {
        let units = ranged(-Wgs84Latitude::LARGEST, Wgs84Latitude::LARGEST, units)?;
        Ok(Wgs84Latitude(units))
    }

    pub fn units(self) -> i64
        ensures { result ≡ self.0 }
    {
        let Wgs84Latitude(units) = self;
        units
    }
}

// Longitude on WGS 84, in 0.00001", east positive.
#[derive(Clone, Copy)]
pub struct Wgs84Longitude(i64);

impl Wgs84Longitude {
    pub const TURN: i64 = AngleShift::PER_MS * LocalLongitude::TURN;

    // From 0 up to TURN, which is out; refused with 3 outside.
    pub fn new(units: i64) -> Result<Wgs84Longitude, Refusal>
        ensures { wgs84_longitude result ≡ tested (is_wgs84_longitude units) units }
    {
        let units = ranged(0, Wgs84Longitude::TURN - 1, units)?;
        Ok(Wgs84Longitude(units))
    }

    pub fn units(self) -> i64
        ensures { result ≡ self.0 }
    {
        let Wgs84Longitude(units) = self;
        units
    }
}

// A position on WGS 84.
#[derive(Clone, Copy)]
pub struct Wgs84Position {
    pub latitude: Wgs84Latitude,
    pub longitude: Wgs84Longitude,
}

// Whether x is from the least to the largest, both in: two comparisons, and no branch between them.
pub fn within(least: i64, largest: i64, x: i64) -> bool
    ensures { result ≡ within least largest x }
{
    (least <= x) & (x <= largest)
}

// x, tested: refused with 3 where it is not within the two.
fn ranged(least: i64, largest: i64, x: i64) -> Result<i64, Refusal>
    ensures { said result ≡ tested (within least largest x) x }
{
    if within(least, largest, x) {
        Ok(x)
    } else {
        Err(Refusal::Range)
    }
}

// In 0.00001", of ms and their shift.
fn converted(ms: i32, by: AngleShift) -> i64
    ensures { result ≡ converted ms by.0 }
{
    AngleShift::PER_MS * i64::from(ms) + i64::from(by.0)
}
