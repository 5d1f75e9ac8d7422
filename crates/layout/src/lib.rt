// The form of a unit sheet: its tests in the order of its bytes, up to the codes of its points. A sheet made for another unit is
// refused as such.
#![tactic(auto)]

ghost use Rattle.std.specs.Prelude.{◌≡◌};
ghost use Rattle.layout.specs.Sheet.{rise};
ghost use Rattle.layout.specs.Layout.{layout_answer, read_of, laid_out};

use kinds::Refusal;

// How many datums and points a sheet has, which says where each of its parts is.
#[derive(Clone, Copy)]
pub struct Layout {
    pub datums: usize,
    pub points: usize,
}

const LAST_CODE: u8 = 6;

// the most that a sheet may have
const MOST_DATUMS: usize = 6;

const MOST_POINTS: usize = 500;

// in bytes: a serial, a count of points, a point
pub const SERIAL: usize = 4;

pub const COUNT: usize = 2;

pub const POINT: usize = 9;

// where the count of datums and the codes are in a sheet
const DATUMS: usize = SERIAL;

pub const CODES: usize = DATUMS + 1;

// Tests the serial, and then the rest but for the points' codes.
#[tactic(auto, using(crate::proofs::Reading::serial_is, crate::proofs::Reading::same_bits, crate::proofs::Reading::other_bits, crate::proofs::Reading::serial_cut, crate::proofs::Reading::serial_zero, crate::proofs::Reading::serial_foreign, crate::proofs::Reading::serial_own))]
pub fn read(unit: i64, sheet: &[u8]) -> Result<Layout, Refusal>
    ensures { layout_answer result ≡ read_of unit sheet.now }
{
    if sheet.len() < SERIAL {
        return Err(Refusal::Length);
    }
    let serial = numbers::unsigned::<SERIAL>(sheet, 0);
    if serial == 0 {
        return Err(Refusal::Sheet);
    }
    if i64::from(serial) != unit {
        return Err(Refusal::Foreign);
    }
    laid_out(sheet)
}

#[tactic(auto, using(crate::proofs::Reading::datums_is, crate::proofs::Reading::count_is, crate::proofs::Reading::datums_cut, crate::proofs::Reading::datums_over, crate::proofs::Reading::rise_is, crate::proofs::Reading::codes_cut, crate::proofs::Reading::codes_wrong, crate::proofs::Reading::count_cut, crate::proofs::Reading::count_over, crate::proofs::Reading::wrong_length, crate::proofs::Reading::all_there))]
fn laid_out(sheet: &[u8]) -> Result<Layout, Refusal>
    ensures { layout_answer result ≡ laid_out sheet.now }
{
    if sheet.len() < CODES {
        return Err(Refusal::Length);
    }
    // to usize by `as`, here and below: the library has no `From<u32>` for it
    let datums = numbers::unsigned::<1>(sheet, DATUMS) as usize;
    if MOST_DATUMS < datums {
        return Err(Refusal::Sheet);
    }
    let count_at = CODES + datums;
    if sheet.len() < count_at {
        return Err(Refusal::Length);
    }
    if !rise(&sheet[CODES..count_at]) {
        return Err(Refusal::Sheet);
    }
    let body = count_at + COUNT;
    if sheet.len() < body {
        return Err(Refusal::Length);
    }
    let points = numbers::unsigned::<COUNT>(sheet, count_at) as usize;
    if MOST_POINTS < points {
        return Err(Refusal::Sheet);
    }
    if sheet.len() != body + points * POINT {
        return Err(Refusal::Length);
    }
    Ok(Layout { datums, points })
}

// Whether each code is above the one before, from 1 to 6: where they rise, the last is the largest.
#[tactic(auto, using(crate::proofs::Codes::rise_stops, crate::proofs::Codes::rise_goes, crate::proofs::Codes::rise_ends))]
fn rise(codes: &[u8]) -> bool
    ensures { result ≡ rise 0 codes.now }
{
    let mut before = 0;
    for &code in codes {
        if code <= before {
            return false;
        }
        before = code;
    }
    before <= LAST_CODE
}
