// The static library that C links, libbuckettin.a: each call of crate buckettin under its own name, with the same promise.
#![tactic(auto)]

ghost use Rattle.std.specs.Prelude.{◌≡◌, length};
ghost use Rattle.kinds.specs.Answer.{refusal_of, counted, lent};
ghost use Rattle.position.specs.Text.{latitude, longitude, read, write};
ghost use Rattle.datum.specs.Point.{shift_of, geoid_of, first_of, second_of, third_of};
ghost use Rattle.floating.specs.Floats.{floating_of, float_zero};
ghost use Rattle.sheet.specs.Result.{work_of};
ghost use Rattle.line.specs.Line.{line_of};
ghost use Rattle.waypoint.specs.Waypoint.{waypoint_of};
ghost use Rattle.buckettin.specs.Fields.{shift_fields, geoid_fields, read_fields, written_fields};

use buckettin::{Geoid, Read, Shift, Written};

#[unsafe(no_mangle)]
pub extern "C" fn buckettin_shift(code: i64, latitude_ms: i64, longitude_ms: i64) -> Shift
    ensures { result ≡ shift_fields (shift_of code latitude_ms longitude_ms) }
{
    buckettin::buckettin_shift(code, latitude_ms, longitude_ms)
}

#[unsafe(no_mangle)]
pub extern "C" fn buckettin_geoid(code: i64, latitude_ms: i64, longitude_ms: i64) -> Geoid
    ensures { result ≡ geoid_fields (geoid_of code latitude_ms longitude_ms) }
{
    buckettin::buckettin_geoid(code, latitude_ms, longitude_ms)
}

#[unsafe(no_mangle)]
pub extern "C" fn buckettin_first(code: i64, latitude_ms: i64, longitude_ms: i64) -> f64
    ensures { result ≡ first_of float_zero (floating_of code latitude_ms longitude_ms) }
{
    buckettin::buckettin_first(code, latitude_ms, longitude_ms)
}

#[unsafe(no_mangle)]
pub extern "C" fn buckettin_second(code: i64, latitude_ms: i64, longitude_ms: i64) -> f64
    ensures { result ≡ second_of float_zero (floating_of code latitude_ms longitude_ms) }
{
    buckettin::buckettin_second(code, latitude_ms, longitude_ms)
}

#[unsafe(no_mangle)]
pub extern "C" fn buckettin_third(code: i64, latitude_ms: i64, longitude_ms: i64) -> f64
    ensures { result ≡ third_of float_zero (floating_of code latitude_ms longitude_ms) }
{
    buckettin::buckettin_third(code, latitude_ms, longitude_ms)
}

#[unsafe(no_mangle)]
pub extern "C" fn buckettin_refusal(code: i64, latitude_ms: i64, longitude_ms: i64) -> u32
    ensures { result ≡ refusal_of (floating_of code latitude_ms longitude_ms) }
{
    buckettin::buckettin_refusal(code, latitude_ms, longitude_ms)
}

#[unsafe(no_mangle)]
pub extern "C" fn buckettin_read_latitude(text: &[u8]) -> Read
    ensures { result ≡ read_fields (read latitude text.now) }
{
    buckettin::buckettin_read_latitude(text)
}

#[unsafe(no_mangle)]
pub extern "C" fn buckettin_read_longitude(text: &[u8]) -> Read
    ensures { result ≡ read_fields (read longitude text.now) }
{
    buckettin::buckettin_read_longitude(text)
}

#[unsafe(no_mangle)]
pub extern "C" fn buckettin_write_latitude(latitude_ms: i64, out: &mut [u8]) -> Written
    ensures value { result ≡ written_fields (counted (write latitude latitude_ms (length out.old))) }
    ensures out_after { out.new ≡ lent (write latitude latitude_ms (length out.old)) out.old }
{
    buckettin::buckettin_write_latitude(latitude_ms, out)
}

#[unsafe(no_mangle)]
pub extern "C" fn buckettin_write_longitude(longitude_ms: i64, out: &mut [u8]) -> Written
    ensures value { result ≡ written_fields (counted (write longitude longitude_ms (length out.old))) }
    ensures out_after { out.new ≡ lent (write longitude longitude_ms (length out.old)) out.old }
{
    buckettin::buckettin_write_longitude(longitude_ms, out)
}

#[unsafe(no_mangle)]
pub extern "C" fn buckettin_sheet(unit_serial: i64, sheet: &[u8], res: &mut [u8]) -> Written
    ensures value { result ≡ written_fields (counted (work_of unit_serial sheet.now (length res.old))) }
    ensures res_after { res.new ≡ lent (work_of unit_serial sheet.now (length res.old)) res.old }
{
    buckettin::buckettin_sheet(unit_serial, sheet, res)
}

#[unsafe(no_mangle)]
pub extern "C" fn buckettin_line(line: &[u8], out: &mut [u8]) -> Written
    ensures value { result ≡ written_fields (counted (line_of line.now (length out.old))) }
    ensures out_after { out.new ≡ lent (line_of line.now (length out.old)) out.old }
{
    buckettin::buckettin_line(line, out)
}

#[unsafe(no_mangle)]
pub extern "C" fn buckettin_waypoint(
    code: i64,
    latitude_ms: i64,
    longitude_ms: i64,
    out: &mut [u8],
) -> Written
    ensures value { result ≡ written_fields (counted (waypoint_of code latitude_ms longitude_ms (length out.old))) }
    ensures out_after { out.new ≡ lent (waypoint_of code latitude_ms longitude_ms (length out.old)) out.old }
{
    buckettin::buckettin_waypoint(code, latitude_ms, longitude_ms, out)
}
