// Code 4, Qatar National: document 000, Table 20.41. Each table stands by rising power of V, then of U.
use super::{Axis, Family, Frame};
use equation::Term;
use kinds::LocalLatitude;

// U = K (φ - 25), V = K (λ - 51), K = 1.04719754; the area is document 01's.
const K: i64 = 104_719_754;

pub(crate) const FRAME: Frame = Frame {
    family: Family::Shift,
    u: Axis {
        factor: K,
        offset: K * 25 * LocalLatitude::DEGREE,
    },
    v: Axis {
        factor: K,
        offset: K * 51 * LocalLatitude::DEGREE,
    },
    south: 24 * LocalLatitude::DEGREE + 20 * LocalLatitude::MINUTE,
    north: 26 * LocalLatitude::DEGREE + 15 * LocalLatitude::MINUTE,
    west: 50 * LocalLatitude::DEGREE + 40 * LocalLatitude::MINUTE,
    east: 51 * LocalLatitude::DEGREE + 45 * LocalLatitude::MINUTE,
};

// Δφ" = 2.47363 + 0.08786 U + 0.14283 U^2 + 0.04380 UV + 0.07142 V^2 - 0.08879 UV^2 - 0.11089 U^5 - 0.06321 U^3V^4
//     + 0.01669 U^9
pub(crate) const LATITUDE: [Term; 9] = [
    Term(247_363, 0, 0), // 2.47363
    Term(8_786, 1, 0), // + 0.08786 U
    Term(14_283, 2, 0), // + 0.14283 U^2
    Term(-11_089, 5, 0), // - 0.11089 U^5
    Term(1_669, 9, 0), // + 0.01669 U^9
    Term(4_380, 1, 1), // + 0.04380 UV
    Term(7_142, 0, 2), // + 0.07142 V^2
    Term(-8_879, 1, 2), // - 0.08879 UV^2
    Term(-6_321, 3, 4), // - 0.06321 U^3V^4
];

// Δλ" = -2.80439 + 0.10489 V + 0.02697 V^2 - 1.10721 U^2V^2 + 2.88786 U^2V^3 - 0.06281 U^5V - 2.59921 U^3V^6
pub(crate) const LONGITUDE: [Term; 7] = [
    Term(-280_439, 0, 0), // -2.80439
    Term(10_489, 0, 1), // + 0.10489 V
    Term(-6_281, 5, 1), // - 0.06281 U^5V
    Term(2_697, 0, 2), // + 0.02697 V^2
    Term(-110_721, 2, 2), // - 1.10721 U^2V^2
    Term(288_786, 2, 3), // + 2.88786 U^2V^3
    Term(-259_921, 3, 6), // - 2.59921 U^3V^6
];

// ΔH m = -28.376 + 2.381 U - 1.126 U^2 + 3.095 V^2 - 4.112 U^3V^3 - 13.156 V^7 - 2.048 U^8 + 1.618 U^9 + 18.689 UV^8
pub(crate) const HEIGHT: [Term; 9] = [
    Term(-28_376, 0, 0), // -28.376
    Term(2_381, 1, 0), // + 2.381 U
    Term(-1_126, 2, 0), // - 1.126 U^2
    Term(-2_048, 8, 0), // - 2.048 U^8
    Term(1_618, 9, 0), // + 1.618 U^9
    Term(3_095, 0, 2), // + 3.095 V^2
    Term(-4_112, 3, 3), // - 4.112 U^3V^3
    Term(-13_156, 0, 7), // - 13.156 V^7
    Term(18_689, 1, 8), // + 18.689 UV^8
];
