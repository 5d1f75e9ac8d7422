// Code 6, Nahrwan, geoid heights: document 000, Table 23.27. Each table stands by rising power of V, then of U.
use super::{Axis, Family, Frame};
use equation::Term;
use kinds::LocalLatitude;

// U = K (φ - 23), V = K (λ - 57), K = 0.41887902; the area is document 01's.
const K: i64 = 41_887_902;

pub(crate) const FRAME: Frame = Frame {
    family: Family::Geoid,
    u: Axis {
        factor: K,
        offset: K * 23 * LocalLatitude::DEGREE,
    },
    v: Axis {
        factor: K,
        offset: K * 57 * LocalLatitude::DEGREE,
    },
    south: 20 * LocalLatitude::DEGREE,
    north: 26 * LocalLatitude::DEGREE + 15 * LocalLatitude::MINUTE,
    west: 51 * LocalLatitude::DEGREE,
    east: 59 * LocalLatitude::DEGREE,
};

// N m = 7.464 - 3.286 U - 3.024 V - 3.944 U^2 - 4.720 V^2 - 2.019 U^3 - 1.613 V^3
pub(crate) const HEIGHT: [Term; 7] = [
    Term(7_464, 0, 0), // 7.464
    Term(-3_286, 1, 0), // - 3.286 U
    Term(-3_944, 2, 0), // - 3.944 U^2
    Term(-2_019, 3, 0), // - 2.019 U^3
    Term(-3_024, 0, 1), // - 3.024 V
    Term(-4_720, 0, 2), // - 4.720 V^2
    Term(-1_613, 0, 3), // - 1.613 V^3
];
