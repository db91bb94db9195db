use super::*;
use decorated_tree::Shape;
use problem::Problem;
use residue::{Class, Integrals, Moduli, Modulus, Power, Powers, Setup, Term, Terms};
use std::alloc::Global;
use std::test::Fail;

/// The conics in the plane with one mark that meet five points, modulo 1,000,000,007 and 101: once with the mark on a
/// line, and once with three times its psi class added.
fn conics(alloc: Global, weights: &[i64]) -> Result<Problem, Fail> {
    problem_of(
        (2, 2, 1),
        weights,
        two_moduli(alloc, 101)?,
        two_integrals(alloc)?,
    )
}

/// The problem of these parts, with both bounds 100.
fn problem_of(
    (r, d, m): (u8, u8, u8),
    weights: &[i64],
    moduli: Moduli,
    integrals: Integrals,
) -> Result<Problem, Fail> {
    let Ok(shape) = Shape::new(r, d, m) else {
        return Err("no shape".into());
    };
    let problem = Problem::new(shape, Setup::new(weights)?, moduli, 100, 100, integrals);
    Ok(problem.ok_or("no problem")?)
}

fn two_moduli(alloc: Global, second: u64) -> Result<Moduli, Fail> {
    let moduli = vec![in alloc; Modulus::new(1_000_000_007)?, Modulus::new(second)?]?;
    Ok(Moduli::of(moduli))
}

fn two_integrals(alloc: Global) -> Result<Integrals, Fail> {
    let on_line = Power {
        class: Class::Mark { mark: 1 },
        power: 1,
    };
    let psi = Power {
        class: Class::Psi { mark: 1 },
        power: 1,
    };
    let first = vec![in alloc; term(alloc, 1, on_line)?]?;
    let second = vec![in alloc; term(alloc, 3, psi)?, term(alloc, 1, on_line)?]?;
    let integrals = vec![in alloc; Terms::of(first), Terms::of(second)]?;
    Ok(Integrals::of(integrals))
}

/// A coefficient times the class of the conics that meet five points, times another class.
fn term(alloc: Global, coefficient: i64, other: Power) -> Result<Term, Fail> {
    let points = Power {
        class: Class::Incidence { q: 2 },
        power: 5,
    };
    let powers = vec![in alloc; points, other]?;
    Ok(Term {
        coefficient,
        classes: Powers::of(powers),
    })
}

/// The covers of degree 4 of a line, modulo 1,000,000,007 and 5, by the square of the class of the first direct image
/// of O(-1).
fn covers(alloc: Global) -> Result<Problem, Fail> {
    problem_of(
        (1, 4, 0),
        &[1, 3],
        two_moduli(alloc, 5)?,
        cover_integrals(alloc)?,
    )
}

fn cover_integrals(alloc: Global) -> Result<Integrals, Fail> {
    let image = Power {
        class: Class::R1 { k: 1 },
        power: 2,
    };
    let term = Term {
        coefficient: 1,
        classes: Powers::of(vec![in alloc; image]?),
    };
    let integrals = vec![in alloc; Terms::of(vec![in alloc; term]?)]?;
    Ok(Integrals::of(integrals))
}

#[test]
fn sums_over_ranges(rt: HostRuntime) -> Result<(), Fail> {
    let problem = conics(rt.alloc(), &[1, 10, 11])?;
    if problem.shape.count() < 120 {
        return Err("too few trees".into());
    }
    for (first, end, sums) in [
        (0, 2, [498_766_014, 37, 2_467_979, 27]),
        (0, 40, [642_341_294, 78, 60_290_848, 27]),
        (3, 4, [215_998_785, 27, 376_000_445, 82]),
        (40, 120, [357_658_715, 25, 939_709_155, 70]),
        (120, 120, [0; 4]),
    ] {
        let total = sum_range(&problem, first, end);
        assert_eq!(rt; total.least, NONE_BAD, "from {first} to {end}");
        assert_eq!(rt; &total.sums[..4], sums.as_slice(), "from {first} to {end}");
    }
    Ok(())
}

#[test]
fn names_the_least_bad_number(rt: HostRuntime) -> Result<(), Fail> {
    // 1 + 120 - 2 * 10 is 101, so an edge of degree 2 between the colours 0 and 2 is bad for the second modulus.
    let problem = conics(rt.alloc(), &[1, 10, 120])?;
    if problem.shape.count() < 120 {
        return Err("too few trees".into());
    }
    for (first, end, least) in [
        (0, 2, NONE_BAD),
        (0, 120, 2),
        (3, 120, 3),
        (12, 120, 28),
        (40, 120, 51),
    ] {
        let total = sum_range(&problem, first, end);
        assert_eq!(rt; total.least, least, "from {first} to {end}");
    }
    assert_eq!(rt; first_bad_modulus(&problem, 0), None);
    assert_eq!(rt; first_bad_modulus(&problem, 2), Some(1u8));
    assert_eq!(rt; first_bad_modulus(&problem, 119), None);
    Ok(())
}
