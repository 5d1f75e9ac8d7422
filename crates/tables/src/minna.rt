// Code 2, Minna: document 000, Table 20.29. Each table stands by rising power of V, then of U.
use super::{Axis, Family, Frame};
use equation::Term;
use kinds::LocalLatitude;

// U = K (φ - 10), V = K (λ - 8), K = 0.15707963; the area is document 01's.
const K: i64 = 15_707_963;

pub(crate) const FRAME: Frame = Frame {
    family: Family::Shift,
    u: Axis {
        factor: K,
        offset: K * 10 * LocalLatitude::DEGREE,
    },
    v: Axis {
        factor: K,
        offset: K * 8 * LocalLatitude::DEGREE,
    },
    south: 4 * LocalLatitude::DEGREE,
    north: 14 * LocalLatitude::DEGREE,
    west: 2 * LocalLatitude::DEGREE + 30 * LocalLatitude::MINUTE,
    east: 14 * LocalLatitude::DEGREE + 45 * LocalLatitude::MINUTE,
};

// Δφ" = 0.49461 - 0.69094 U + 0.39940 V - 7.44709 U^3 - 1.82129 U^2V - 2.92752 UV^2 + 5.70789 U^3V - 2.10838 U^2V^2
//     - 6.88780 UV^3 + 14.35602 U^5 + 5.10389 UV^4 + 6.18524 U^6 + 8.62320 UV^5 + 48.52705 U^7V^2 - 0.49769 V^9
//     - 11.39331 U^4V^8
pub(crate) const LATITUDE: [Term; 16] = [
    Term(49_461, 0, 0), // 0.49461
    Term(-69_094, 1, 0), // - 0.69094 U
    Term(-744_709, 3, 0), // - 7.44709 U^3
    Term(1_435_602, 5, 0), // + 14.35602 U^5
    Term(618_524, 6, 0), // + 6.18524 U^6
    Term(39_940, 0, 1), // + 0.39940 V
    Term(-182_129, 2, 1), // - 1.82129 U^2V
    Term(570_789, 3, 1), // + 5.70789 U^3V
    Term(-292_752, 1, 2), // - 2.92752 UV^2
    Term(-210_838, 2, 2), // - 2.10838 U^2V^2
    Term(4_852_705, 7, 2), // + 48.52705 U^7V^2
    Term(-688_780, 1, 3), // - 6.88780 UV^3
    Term(510_389, 1, 4), // + 5.10389 UV^4
    Term(862_320, 1, 5), // + 8.62320 UV^5
    Term(-1_139_331, 4, 8), // - 11.39331 U^4V^8
    Term(-49_769, 0, 9), // - 0.49769 V^9
];

// Δλ" = -2.62435 - 0.21876 U + 0.43678 V + 0.35068 UV - 1.53864 U^2V - 0.46268 UV^3 + 2.20240 U^4V - 0.11456 V^5
//     + 1.59485 U^3V^4
pub(crate) const LONGITUDE: [Term; 9] = [
    Term(-262_435, 0, 0), // -2.62435
    Term(-21_876, 1, 0), // - 0.21876 U
    Term(43_678, 0, 1), // + 0.43678 V
    Term(35_068, 1, 1), // + 0.35068 UV
    Term(-153_864, 2, 1), // - 1.53864 U^2V
    Term(220_240, 4, 1), // + 2.20240 U^4V
    Term(-46_268, 1, 3), // - 0.46268 UV^3
    Term(159_485, 3, 4), // + 1.59485 U^3V^4
    Term(-11_456, 0, 5), // - 0.11456 V^5
];

// ΔH m = 20.013 + 2.098 U - 11.691 V + 47.983 U^2V - 60.195 U^4V - 21.214 U^2V^3 + 8.642 V^5 - 12.588 U^5V
//     - 27.760 U^3V^8
pub(crate) const HEIGHT: [Term; 9] = [
    Term(20_013, 0, 0), // 20.013
    Term(2_098, 1, 0), // + 2.098 U
    Term(-11_691, 0, 1), // - 11.691 V
    Term(47_983, 2, 1), // + 47.983 U^2V
    Term(-60_195, 4, 1), // - 60.195 U^4V
    Term(-12_588, 5, 1), // - 12.588 U^5V
    Term(-21_214, 2, 3), // - 21.214 U^2V^3
    Term(8_642, 0, 5), // + 8.642 V^5
    Term(-27_760, 3, 8), // - 27.760 U^3V^8
];
