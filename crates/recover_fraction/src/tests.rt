//! Values by hand and by exact arithmetic with numbers of any size.

use crate::{Fraction, recover};

/// 2^62 - 1, the greatest bound.
const GREATEST: u64 = 4_611_686_018_427_387_903;

const PRIME: u64 = 1_000_000_007;

/// Below 2^126, and above twice the square of the greatest bound.
const LARGE: u128 = 85_070_591_730_234_615_865_843_651_857_942_052_863;

#[test]
fn fractions(rt: HostRuntime) {
    for (x, m, a, b, fraction) in [
        (37_913, 101_101, 100, 100, Some((1, 8))),
        (27, 1009, 10, 1, None),
        (27, PRIME as u128, 1000, 1000, Some((27, 1))),
        (
            375_609_612,
            PRIME as u128,
            10_000_000,
            50,
            Some((4_876_875, 8)),
        ),
        (98, 101, 10, 4, Some((-3, 1))),
        (0, 101, 10, 4, Some((0, 1))),
        (50, 101, 7, 7, Some((-1, 2))),
        (51, 101, 7, 7, Some((1, 2))),
        // Every bottom that is found with the top 0 but 1 has a common divisor with it.
        (3, 6, 1, 2, None),
        (6, 9, 1, 4, None),
        // The least moduli for these bounds.
        (2, 3, 1, 1, Some((-1, 1))),
        (7, 15, 2, 3, Some((-1, 2))),
        (3, 15, 2, 3, None),
        (
            80_209_415_059_935_494_960_278_114_270_271_624_220,
            LARGE,
            GREATEST,
            GREATEST,
            Some((-4_611_686_018_427_387_903, 4_611_686_018_427_387_901)),
        ),
        (
            45_370_982_256_125_128_460_553_498_052_655_124_753,
            LARGE,
            GREATEST,
            GREATEST,
            Some((4_611_686_018_427_387_903, 4_611_686_018_427_387_902)),
        ),
    ] {
        assert!(rt; x < m && 1 <= a && a <= GREATEST && 1 <= b && b <= GREATEST);
        assert!(rt; 2 * a as u128 * (b as u128) < m);
        let wanted = fraction.map(|(top, bottom)| Fraction { top, bottom });
        assert_eq!(rt; recover(x, m, a, b), wanted, "{x} modulo {m}");
    }
}
