// What C calls, and nothing else. include/buckettin.h declares it, with units, ranges, refusals and an example of each call.
// An answer is numbers, the refusal first: 0, or document 01's number with zeros beside it. C has a name and a struct for each
// call: so each stands by itself, and fills its own struct.
#![tactic(auto)]

ghost use Rattle.std.specs.Prelude.{◌≡◌, ◌<◌, length};
ghost use Rattle.kinds.specs.Answer.{refusal_of, counted, lent};
ghost use Rattle.kinds.specs.Cases.{said, written};
ghost use Rattle.position.specs.Text.{latitude, longitude, read, write};
ghost use Rattle.datum.specs.Point.{shift_of, geoid_of, first_of, second_of, third_of};
ghost use Rattle.datum.specs.Cases.{shift_answer, geoid_answer};
ghost use Rattle.floating.specs.Floats.{floating_of, float_zero};
ghost use Rattle.sheet.specs.Result.{work_of};
ghost use Rattle.line.specs.Line.{line_of};
ghost use Rattle.waypoint.specs.Waypoint.{waypoint_of};
ghost use Rattle.buckettin.specs.Fields.{value_or, shift_fields, geoid_fields, read_fields, written_fields};

use datum::{Point, Shifts};
use kinds::{Height, LocalLatitude, LocalLongitude, Refusal};

#[repr(C)]
#[derive(Clone, Copy)]
pub struct Shift {
    pub refusal: u32,
    pub dlat: i32,
    pub dlon: i32,
    pub dh: i32,
}

impl Shift {
    fn of(refusal: u32, dlat: i32, dlon: i32, dh: i32) -> Shift
        ensures { result ≡ record { refusal = refusal; dlat = dlat; dlon = dlon; dh = dh } }
    {
        Shift {
            refusal,
            dlat,
            dlon,
            dh,
        }
    }
}

impl From<Result<Shifts, Refusal>> for Shift {
    ghost from_gives = { λ answer shift. shift ≡ shift_fields (shift_answer answer) };

    fn from(answer: Result<Shifts, Refusal>) -> Shift {
        match answer {
            Ok(shifts) => Shift::of(
                0,
                shifts.latitude.units(),
                shifts.longitude.units(),
                shifts.height.mm(),
            ),
            Err(why) => Shift::of(u32::from(why.number()), 0, 0, 0),
        }
    }
}

#[repr(C)]
#[derive(Clone, Copy)]
pub struct Geoid {
    pub refusal: u32,
    pub n: i32,
}

impl Geoid {
    fn of(refusal: u32, n: i32) -> Geoid
        ensures { result ≡ record { refusal = refusal; n = n } }
    {
        Geoid { refusal, n }
    }
}

impl From<Result<Height, Refusal>> for Geoid {
    ghost from_gives = { λ answer geoid. geoid ≡ geoid_fields (geoid_answer answer) };

    fn from(answer: Result<Height, Refusal>) -> Geoid {
        match answer {
            Ok(height) => Geoid::of(0, height.mm()),
            Err(why) => Geoid::of(u32::from(why.number()), 0),
        }
    }
}

#[repr(C)]
#[derive(Clone, Copy)]
pub struct Read {
    pub refusal: u32,
    pub ms: i32,
}

impl Read {
    fn of(refusal: u32, ms: i32) -> Read
        ensures { result ≡ record { refusal = refusal; ms = ms } }
    {
        Read { refusal, ms }
    }
}

impl From<Result<i32, Refusal>> for Read {
    ghost from_gives = { λ answer read. read ≡ read_fields (said answer) };

    fn from(answer: Result<i32, Refusal>) -> Read {
        match answer {
            Ok(ms) => Read::of(0, ms),
            Err(why) => Read::of(u32::from(why.number()), 0),
        }
    }
}

#[repr(C)]
#[derive(Clone, Copy)]
pub struct Written {
    pub refusal: u32,
    pub written: u32,
}

impl Written {
    fn of(refusal: u32, written: u32) -> Written
        ensures { result ≡ record { refusal = refusal; written = written } }
    {
        Written { refusal, written }
    }
}

pub fn buckettin_shift(code: i64, latitude_ms: i64, longitude_ms: i64) -> Shift
    ensures { result ≡ shift_fields (shift_of code latitude_ms longitude_ms) }
{
    Shift::from(point(code, latitude_ms, longitude_ms).shift())
}

pub fn buckettin_geoid(code: i64, latitude_ms: i64, longitude_ms: i64) -> Geoid
    ensures { result ≡ geoid_fields (geoid_of code latitude_ms longitude_ms) }
{
    Geoid::from(point(code, latitude_ms, longitude_ms).geoid())
}

pub fn buckettin_first(code: i64, latitude_ms: i64, longitude_ms: i64) -> f64
    ensures { result ≡ first_of float_zero (floating_of code latitude_ms longitude_ms) }
{
    floating::first(point(code, latitude_ms, longitude_ms))
}

pub fn buckettin_second(code: i64, latitude_ms: i64, longitude_ms: i64) -> f64
    ensures { result ≡ second_of float_zero (floating_of code latitude_ms longitude_ms) }
{
    floating::second(point(code, latitude_ms, longitude_ms))
}

pub fn buckettin_third(code: i64, latitude_ms: i64, longitude_ms: i64) -> f64
    ensures { result ≡ third_of float_zero (floating_of code latitude_ms longitude_ms) }
{
    floating::third(point(code, latitude_ms, longitude_ms))
}

pub fn buckettin_refusal(code: i64, latitude_ms: i64, longitude_ms: i64) -> u32
    ensures { result ≡ refusal_of (floating_of code latitude_ms longitude_ms) }
{
    u32::from(floating::refusal(point(code, latitude_ms, longitude_ms)))
}

pub fn buckettin_read_latitude(text: &[u8]) -> Read
    ensures { result ≡ read_fields (read latitude text.now) }
{
    Read::from(position::read_latitude(text).map(LocalLatitude::ms))
}

pub fn buckettin_read_longitude(text: &[u8]) -> Read
    ensures { result ≡ read_fields (read longitude text.now) }
{
    Read::from(position::read_longitude(text).map(LocalLongitude::ms))
}

pub fn buckettin_write_latitude(latitude_ms: i64, out: &mut [u8]) -> Written
    ensures value { result ≡ written_fields (counted (write latitude latitude_ms (length out.old))) }
    ensures out_after { out.new ≡ lent (write latitude latitude_ms (length out.old)) out.old }
{
    in_numbers(position::write_latitude(latitude_ms, out))
}

pub fn buckettin_write_longitude(longitude_ms: i64, out: &mut [u8]) -> Written
    ensures value { result ≡ written_fields (counted (write longitude longitude_ms (length out.old))) }
    ensures out_after { out.new ≡ lent (write longitude longitude_ms (length out.old)) out.old }
{
    in_numbers(position::write_longitude(longitude_ms, out))
}

pub fn buckettin_sheet(unit_serial: i64, sheet: &[u8], res: &mut [u8]) -> Written
    ensures value { result ≡ written_fields (counted (work_of unit_serial sheet.now (length res.old))) }
    ensures res_after { res.new ≡ lent (work_of unit_serial sheet.now (length res.old)) res.old }
{
    in_numbers(sheet::work(unit_serial, sheet, res))
}

pub fn buckettin_line(line: &[u8], out: &mut [u8]) -> Written
    ensures value { result ≡ written_fields (counted (line_of line.now (length out.old))) }
    ensures out_after { out.new ≡ lent (line_of line.now (length out.old)) out.old }
{
    in_numbers(line::line(line, out))
}

pub fn buckettin_waypoint(code: i64, latitude_ms: i64, longitude_ms: i64, out: &mut [u8]) -> Written
    ensures value { result ≡ written_fields (counted (waypoint_of code latitude_ms longitude_ms (length out.old))) }
    ensures out_after { out.new ≡ lent (waypoint_of code latitude_ms longitude_ms (length out.old)) out.old }
{
    in_numbers(waypoint::waypoint(point(code, latitude_ms, longitude_ms), out))
}

// The three numbers of C's calls as a point.
fn point(code: i64, latitude: i64, longitude: i64) -> Point
    ensures { result ≡ record { code = code; latitude = latitude; longitude = longitude } }
{
    Point {
        code,
        latitude,
        longitude,
    }
}

// How many bytes were written, or why none. No `From`, which could not ask that the count fits 4 bytes.
fn in_numbers(answer: Result<usize, Refusal>) -> Written
    requires { value_or 0 (written answer) < 4294967296 }
    ensures { result ≡ written_fields (written answer) }
{
    match answer {
        Ok(count) => Written::of(0, count as u32),
        Err(why) => Written::of(u32::from(why.number()), 0),
    }
}
