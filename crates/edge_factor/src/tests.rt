//! Values by exact fractions, whose tops and bottoms were computed as whole numbers of any size.

use super::*;
use std::test::Fail;

/// 2^62 - 1 = 3 * 715827883 * 2147483647, the greatest modulus.
const GREATEST: u64 = 4_611_686_018_427_387_903;

/// A prime near 2^62.
const PRIME: u64 = 4_611_686_018_427_387_847;

/// The residue at an edge, which is checked to be one.
fn residue_at(
    rt: &impl std::process::Abort,
    weights: &[i64],
    ends: (u8, u8),
    degree: u8,
    modulus: u64,
) -> Result<Option<u64>, Fail> {
    let setup = Setup::new(weights)?;
    let modulus = Modulus::new(modulus)?;
    let (i, j) = ends;
    assert!(rt; i <= setup.rank() && j <= setup.rank() && i != j && 1 <= degree && degree <= 10);
    Ok(edge(&setup, i, j, degree, &modulus).ok())
}

/// Thirteen weights, the least and the greatest among them.
const MANY: &[i64] = &[
    -999_999_999,
    1_000_000_000,
    7,
    2,
    5,
    -3,
    11,
    13,
    17,
    19,
    23,
    29,
    31,
];

#[test]
fn residues_of_edges(rt: HostRuntime) -> Result<(), Fail> {
    for (weights, ends, degree, modulus, residue) in [
        ([1, 3].as_slice(), (0, 1), 2, 101, 38),
        ([1, 3].as_slice(), (1, 0), 2, 1001, 876),
        (
            [1, 3].as_slice(),
            (0, 1),
            1,
            GREATEST,
            3_458_764_513_820_540_927,
        ),
        ([1, 3, 9].as_slice(), (0, 1), 1, 25, 22),
        ([0, 1, 3].as_slice(), (0, 2), 2, 101, 91),
        ([0, 1, 4].as_slice(), (1, 2), 2, 1001, 566),
        (
            [5, -3, 1_000_000_000].as_slice(),
            (2, 1),
            1,
            GREATEST,
            3_753_593_686_443_940_765,
        ),
        (
            [1, 10, 100, 1000, 10_000].as_slice(),
            (4, 1),
            10,
            PRIME,
            1_371_279_543_273_766_536,
        ),
        (MANY, (1, 0), 7, PRIME, 2_583_033_824_653_135_352),
    ] {
        let found = residue_at(&rt, weights, ends, degree, modulus)?;
        assert_eq!(rt; found, Some(residue), "degree {degree} modulo {modulus}");
    }
    Ok(())
}
