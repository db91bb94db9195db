//! Values from outside: by hand, by the definitions, or by exact arithmetic with numbers of any size.

use crate::Modulus;
use std::test::Fail;

/// 2^62 - 1, the greatest modulus.
const GREATEST: u64 = 4_611_686_018_427_387_903;

#[test]
fn sums_and_products(rt: HostRuntime) -> Result<(), Fail> {
    for (m, x, y, sum, difference, product) in [
        (3, 2, 2, 1, 0, 1),
        (101, 100, 2, 1, 98, 99),
        (GREATEST, GREATEST - 1, GREATEST - 1, GREATEST - 2, 0, 1),
        (GREATEST, 3, GREATEST - 1, 2, 4, GREATEST - 3),
        (
            1_000_000_007,
            123_456_789,
            987_654_321,
            111_111_103,
            135_802_475,
            259_106_859,
        ),
    ] {
        let modulus = Modulus::new(m)?;
        assert_eq!(rt; modulus.get(), m);
        assert!(rt; x < m && y < m);
        assert_eq!(rt; modulus.add(x, y), sum, "sum modulo {m}");
        assert_eq!(rt; modulus.sub(x, y), difference, "difference modulo {m}");
        assert_eq!(rt; modulus.mul(x, y), product, "product modulo {m}");
    }
    Ok(())
}

#[test]
fn inverses(rt: HostRuntime) -> Result<(), Fail> {
    for (m, x, inverse) in [
        (3, 0, None),
        (9, 2, Some(5)),
        (9, 6, None),
        (101, 96, Some(20)),
        (GREATEST, 2, Some(1 << 61)),
        (GREATEST, 3, None),
    ] {
        let modulus = Modulus::new(m)?;
        assert!(rt; x < m);
        assert_eq!(rt; modulus.inverse(x), inverse, "of {x} modulo {m}");
        assert_eq!(rt;
            modulus.quotient(0, x).is_ok(),
            inverse.is_some(),
            "over {x} modulo {m}"
        );
    }
    assert_eq!(rt; Modulus::new(101)?.quotient(1, 8)?, 38);
    Ok(())
}
