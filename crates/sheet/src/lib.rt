// The unit sheet and its result: a sheet made for another unit is refused as such, and what is accepted is worked point by
// point into a lent buffer.
#![tactic(auto)]

ghost use Rattle.std.specs.Prelude.{◌≡◌, true, pos, ◌++◌, ◌+◌, ◌*◌, ◌≤◌, length, drop};
ghost use Rattle.kinds.specs.Answer.{gives, counted, lent};
ghost use Rattle.kinds.specs.Cases.{written};
ghost use Rattle.layout.specs.Sheet.{point};
ghost use Rattle.layout.specs.Layout.{laid_out};
ghost use Rattle.sheet.specs.Result.{record_length, work_of};
ghost use Rattle.sheet.specs.Inside.{flags, all_flagged, record_of, point_record, records, finished};

use datum::{Given, Point};
use kinds::Refusal;
use layout::Layout;
use numbers::unsigned;

// Works the sheet of a unit: writes the result to the start of a lent buffer and says how many bytes, 6 and 13 for each point.
// Refused, in the order of the sheet's bytes: 1 where it is cut or bytes follow, 9 where its serial is zero, a count is over
// its limit or the codes are wrong, 8 where it is another unit's; then 9 where a point's code is not listed, 7 where the result
// has no room. A point that is out of range or outside its area does not refuse the sheet: the result has its number.
// A unit whose own number is not 1 to 4294967295 is given 8 for any sheet with a serial.
pub fn work(unit: i64, sheet: &[u8], res: &mut [u8]) -> Result<usize, Refusal>
    ensures result_value { written result ≡ counted (work_of unit sheet.now (length res.old)) }
    ensures res_after { res.new ≡ lent (work_of unit sheet.now (length res.old)) res.old }
{
    let layout = layout::read(unit, sheet)?;
    finished(layout, sheet, res)
}

// in bytes: the start of a result, and a point's record in it
const START: usize = layout::SERIAL + layout::COUNT;

const RECORD: usize = 13;

// By code, whatever the byte, whether it is listed.
#[tactic(auto, using(crate::proofs::Codes::none_flagged, crate::proofs::Codes::flag_next))]
fn listed(codes: &[u8]) -> [bool; 256]
    ensures { result ≡ flags codes.now }
{
    let mut flags = [false; 256];
    for &code in codes {
        flags[usize::from(code)] = true;
    }
    flags
}

// Whether every point's code is listed.
fn all_listed(points: &[[u8; layout::POINT]], listed: [bool; 256]) -> bool
    ensures { result ≡ all_flagged listed points.now }
{
    points.iter().all(|point| listed[usize::from(point[0])])
}

// The record of a point in a result: the number of its refusal, or 0, and three values. A number, since it is the record's first
// byte.
fn in_record(refusal: u8, first: i32, second: i32, third: i32) -> [u8; RECORD]
    ensures { result ≡ record_of refusal first second third }
{
    let mut record = [0; RECORD];
    record[0] = refusal;
    record[1..5].copy_from_slice(&numbers::in_four_signed(first));
    record[5..9].copy_from_slice(&numbers::in_four_signed(second));
    record[9..RECORD].copy_from_slice(&numbers::in_four_signed(third));
    record
}

// The point that 9 bytes of a sheet say.
#[tactic(auto, unfolding(layout::specs::Sheet::point))]
fn point(bytes: &[u8; layout::POINT]) -> Point
    ensures code_value { result.code ≡ pos (point bytes.now).code }
    ensures latitude_value { result.latitude ≡ (point bytes.now).latitude }
    ensures longitude_value { result.longitude ≡ pos (point bytes.now).longitude }
{
    Point {
        code: i64::from(unsigned::<1>(bytes, 0)),
        latitude: numbers::signed(unsigned::<4>(bytes, 1)),
        longitude: i64::from(unsigned::<4>(bytes, 5)),
    }
}

// Its record.
fn point_record(bytes: &[u8; layout::POINT]) -> [u8; RECORD]
    ensures { result ≡ point_record bytes.now }
{
    let asked = point(bytes);
    match asked.answer() {
        Ok(Given::Shift(shifts)) => in_record(
            0,
            shifts.latitude.units(),
            shifts.longitude.units(),
            shifts.height.mm(),
        ),
        Ok(Given::Geoid(height)) => in_record(0, height.mm(), 0, 0),
        Err(why) => in_record(why.number(), 0, 0, 0),
    }
}

// The records of all points, at the start of out. By places: which bytes are written through `chunks_exact_mut` no promise of the
// library says.
#[tactic(auto, using(crate::proofs::Results::no_records, crate::proofs::Results::copied, crate::proofs::Results::turn, crate::proofs::Results::turn_long))]
fn records(points: &[[u8; layout::POINT]], out: &mut [u8])
    requires { length points.now * record_length ≤ length out.old }
    ensures { out.new ≡ records points.now ++ drop (length points.now * record_length) out.old }
{
    for (i, point) in points.iter().enumerate() {
        kinds::copy(&point_record(point), &mut out[i * RECORD..]);
    }
}

// The serial and the count of points, as the sheet has them, and the records, at the start of a result that has room for them. The
// two are slices: to take them as arrays, each would have to be proved to be there where it is cut.
fn put(serial: &[u8], count: &[u8], points: &[[u8; layout::POINT]], res: &mut [u8])
    requires serial_len { length serial.now ≡ 4 }
    requires count_len { length count.now ≡ 2 }
    requires in_bounds { 6 + length points.now * record_length ≤ length res.old }
    ensures { res.new ≡ serial.now ++ count.now ++ records points.now ++ drop (6 + length points.now * record_length) res.old }
{
    kinds::copy(serial, res);
    kinds::copy(count, &mut res[layout::SERIAL..]);
    records(points, &mut res[START..]);
}

// The rest of the work on a sheet that passed the tests of `read`.
#[tactic(auto, using(layout::proofs::Reading::laid, crate::proofs::Calls::codes_end, crate::proofs::Calls::body_start, crate::proofs::Calls::five_more, crate::proofs::Calls::seven_more, crate::proofs::Calls::records_fit, crate::proofs::Calls::result_fits, crate::proofs::Calls::points_fit, crate::proofs::Calls::serial_lent))]
fn finished(layout: Layout, sheet: &[u8], res: &mut [u8]) -> Result<usize, Refusal>
    requires { laid_out sheet.now ≡ gives layout }
    ensures result_value { written result ≡ counted (finished sheet.now (length res.old)) }
    ensures res_after { res.new ≡ lent (finished sheet.now (length res.old)) res.old }
{
    let bytes = START + layout.points * RECORD;
    let count_at = layout::CODES + layout.datums;
    let body_at = count_at + layout::COUNT;
    let (points, _) = sheet[body_at..].as_chunks::<{ layout::POINT }>();
    let all = all_listed(points, listed(&sheet[layout::CODES..count_at]));
    if !all {
        return Err(Refusal::Sheet);
    }
    if res.len() < bytes {
        return Err(Refusal::Room);
    }
    let serial = &sheet[..layout::SERIAL];
    put(serial, &sheet[count_at..body_at], points, res);
    Ok(bytes)
}
