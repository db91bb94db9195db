//! Values by exact fractions, whose tops and bottoms were computed as whole numbers of any size.

ghost use Rattle.std.specs.Prelude.{All};
ghost use Rattle.std.specs.Bool.{OnTrue};
ghost use Rattle.vertex_factor.specs.Ends.{IsEndAt};

mod table;

use super::*;
use residue::{Modulus, Setup};
use std::process::Abort;
use std::test::Fail;

/// 2^62 - 1 = 3 * 715827883 * 2147483647, the greatest modulus.
const GREATEST: u64 = 4_611_686_018_427_387_903;

/// A prime near 2^62.
const PRIME: u64 = 4_611_686_018_427_387_847;

/// Whether the ends are such as a vertex of colour `c` may have.
fn are_ends(setup: &Setup, c: u8, ends: &[(u8, u8)]) -> bool
    ensures { OnTrue result (All (IsEndAt setup.now c) ends.now) }
{
    for (colour, degree) in ends {
        if *colour > setup.rank() || *colour == c || *degree == 0 || *degree > 10 {
            return false;
        }
    }
    true
}

fn psi_at(
    rt: &impl Abort,
    weights: &[i64],
    c: u8,
    ends: &[(u8, u8)],
    exponents: &[u8],
    modulus: u64,
) -> Result<Option<u64>, Fail> {
    let setup = Setup::new(weights)?;
    assert!(rt; c <= setup.rank() && !ends.is_empty() && ends.len() <= 10 && exponents.len() <= 12);
    assert!(rt; are_ends(&setup, c, ends));
    assert!(rt; exponents.iter().all(|k| *k <= 151));
    Ok(vertex_psi(&setup, c, ends, exponents, &Modulus::new(modulus)?).ok())
}

#[test]
fn psi_classes_at_several_edges(rt: HostRuntime) -> Result<(), Fail> {
    let five = [1, 10, 100, 1000, 10_000];
    let three = [(0, 1), (1, 2), (3, 1)];
    let rows: [(&[i64], u8, &[(u8, u8)], &[u8], u64, Option<u64>); 4] = [
        (&[1, 3], 0, &[(1, 1), (1, 1)], &[], 101, Some(51)),
        (
            &five,
            2,
            &three,
            &[1, 0, 2, 1],
            PRIME,
            Some(4_592_823_405_867_387_847),
        ),
        (&five, 2, &three, &[1, 0, 2, 2], PRIME, Some(0)),
        (
            &five,
            4,
            &[(0, 1); 10],
            &[1, 2, 3, 4, 5, 4, 0, 0, 0, 0, 0, 0],
            PRIME,
            Some(2_879_915_468_193_851_262),
        ),
    ];
    for (weights, c, ends, exponents, modulus, residue) in rows {
        let found = psi_at(&rt, weights, c, ends, exponents, modulus)?;
        assert_eq!(rt; found, residue, "{exponents:?} at {c} modulo {modulus}");
    }
    Ok(())
}
