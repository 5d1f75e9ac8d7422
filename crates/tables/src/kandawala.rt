// Code 5, Kandawala, geoid heights: document 000, Table 23.21. Each table stands by rising power of V, then of U.
use super::{Axis, Family, Frame};
use equation::Term;
use kinds::LocalLatitude;

// U = K (φ - 7), V = K (λ - 80), K = 0.52359877; the area is document 01's.
const K: i64 = 52_359_877;

pub(crate) const FRAME: Frame = Frame {
    family: Family::Geoid,
    u: Axis {
        factor: K,
        offset: K * 7 * LocalLatitude::DEGREE,
    },
    v: Axis {
        factor: K,
        offset: K * 80 * LocalLatitude::DEGREE,
    },
    south: 5 * LocalLatitude::DEGREE + 50 * LocalLatitude::MINUTE,
    north: 9 * LocalLatitude::DEGREE + 55 * LocalLatitude::MINUTE,
    west: 79 * LocalLatitude::DEGREE + 30 * LocalLatitude::MINUTE,
    east: 82 * LocalLatitude::DEGREE,
};

// N m = - 0.979 + 1.853 U - 3.443 U^2 + 2.523 U^3 - 5.423 U^2V - 5.278 V^3 + 3.965 U^4V^3 - 0.899 U^7V^2
//     + 5.225 U^2V^9
pub(crate) const HEIGHT: [Term; 9] = [
    Term(-979, 0, 0), // - 0.979
    Term(1_853, 1, 0), // + 1.853 U
    Term(-3_443, 2, 0), // - 3.443 U^2
    Term(2_523, 3, 0), // + 2.523 U^3
    Term(-5_423, 2, 1), // - 5.423 U^2V
    Term(-899, 7, 2), // - 0.899 U^7V^2
    Term(-5_278, 0, 3), // - 5.278 V^3
    Term(3_965, 4, 3), // + 3.965 U^4V^3
    Term(5_225, 2, 9), // + 5.225 U^2V^9
];
