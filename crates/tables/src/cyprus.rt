// Code 1, ED 50 (Cyprus): document 000, Table 20.16. Each table stands by rising power of V, then of U.
use super::{Axis, Family, Frame};
use equation::Term;
use kinds::LocalLatitude;

// U = K (φ - 35), V = K (λ - 33), K = 0.78539816; the area is document 01's.
const K: i64 = 78_539_816;

pub(crate) const FRAME: Frame = Frame {
    family: Family::Shift,
    u: Axis {
        factor: K,
        offset: K * 35 * LocalLatitude::DEGREE,
    },
    v: Axis {
        factor: K,
        offset: K * 33 * LocalLatitude::DEGREE,
    },
    south: 34 * LocalLatitude::DEGREE + 30 * LocalLatitude::MINUTE,
    north: 35 * LocalLatitude::DEGREE + 45 * LocalLatitude::MINUTE,
    west: 32 * LocalLatitude::DEGREE + 10 * LocalLatitude::MINUTE,
    east: 34 * LocalLatitude::DEGREE + 40 * LocalLatitude::MINUTE,
};

// Δφ" = - 3.84288 + 0.09188 U + 0.03581 V - 0.07481 UV
pub(crate) const LATITUDE: [Term; 4] = [
    Term(-384_288, 0, 0), // - 3.84288
    Term(9_188, 1, 0), // + 0.09188 U
    Term(3_581, 0, 1), // + 0.03581 V
    Term(-7_481, 1, 1), // - 0.07481 UV
];

// Δλ" = - 1.10294 - 0.04240 U + 0.12748 V - 0.32783 UV^2 + 0.51023 UV^3 - 0.01600 V^7 - 0.1718 U^3V^9
pub(crate) const LONGITUDE: [Term; 7] = [
    Term(-110_294, 0, 0), // - 1.10294
    Term(-4_240, 1, 0), // - 0.04240 U
    Term(12_748, 0, 1), // + 0.12748 V
    Term(-32_783, 1, 2), // - 0.32783 UV^2
    Term(51_023, 1, 3), // + 0.51023 UV^3
    Term(-1_600, 0, 7), // - 0.01600 V^7
    Term(-17_180, 3, 9), // - 0.1718 U^3V^9
];

// ΔH m = 24.430 - 5.719 U + 0.778 V + 5.631 U^2 - 23.892 UV + 18.980 U^2V - 0.988 V^3 + 106.027 U^3V - 42.824 U^4V
//     - 323.655 U^9V^2 + 2.261 U^4V^9
pub(crate) const HEIGHT: [Term; 11] = [
    Term(24_430, 0, 0), // 24.430
    Term(-5_719, 1, 0), // - 5.719 U
    Term(5_631, 2, 0), // + 5.631 U^2
    Term(778, 0, 1), // + 0.778 V
    Term(-23_892, 1, 1), // - 23.892 UV
    Term(18_980, 2, 1), // + 18.980 U^2V
    Term(106_027, 3, 1), // + 106.027 U^3V
    Term(-42_824, 4, 1), // - 42.824 U^4V
    Term(-323_655, 9, 2), // - 323.655 U^9V^2
    Term(-988, 0, 3), // - 0.988 V^3
    Term(2_261, 4, 9), // + 2.261 U^4V^9
];
