//! Sums of problems whose values are known, through their tables.

ghost use Rattle.problem.specs.Problems.{view as problem_view};
ghost use Rattle.factor_table.specs.Seats.{IsSeatOf};
ghost use Rattle.table_sum.specs.Problems.{IsTableOf};

use super::*;
use decorated_tree::Shape;
use factor_table::{FactorSeat, FactorTable};
use problem::Problem;
use residue::{Class, Integrals, Moduli, Modulus, NoUnit, Power, Powers, Setup, Term, Terms};
use std::alloc::Global;
use std::process::Abort;
use std::test::Fail;

/// The conics in the plane with one mark that meet five points, modulo 1,000,000,007 and 101: once with the mark on a
/// line, and once with three times its psi class added.
fn conics(alloc: Global, weights: &[i64]) -> Result<Problem, Fail> {
    problem_of(
        (2, 2, 1),
        weights,
        two_moduli(alloc, 101)?,
        two_integrals(alloc)?,
    )
}

/// The problem of these parts, with both bounds 100.
fn problem_of(
    (r, d, m): (u8, u8, u8),
    weights: &[i64],
    moduli: Moduli,
    integrals: Integrals,
) -> Result<Problem, Fail> {
    let Ok(shape) = Shape::new(r, d, m) else {
        return Err("no shape".into());
    };
    let problem = Problem::new(shape, Setup::new(weights)?, moduli, 100, 100, integrals);
    Ok(problem.ok_or("no problem")?)
}

fn two_moduli(alloc: Global, second: u64) -> Result<Moduli, Fail> {
    let moduli = vec![in alloc; Modulus::new(1_000_000_007)?, Modulus::new(second)?]?;
    Ok(Moduli::of(moduli))
}

fn two_integrals(alloc: Global) -> Result<Integrals, Fail> {
    let on_line = Power {
        class: Class::Mark { mark: 1 },
        power: 1,
    };
    let psi = Power {
        class: Class::Psi { mark: 1 },
        power: 1,
    };
    let first = vec![in alloc; term(alloc, 1, on_line)?]?;
    let second = vec![in alloc; term(alloc, 3, psi)?, term(alloc, 1, on_line)?]?;
    let integrals = vec![in alloc; Terms::of(first), Terms::of(second)]?;
    Ok(Integrals::of(integrals))
}

/// A coefficient times the class of the conics that meet five points, times another class.
fn term(alloc: Global, coefficient: i64, other: Power) -> Result<Term, Fail> {
    let points = Power {
        class: Class::Incidence { q: 2 },
        power: 5,
    };
    let powers = vec![in alloc; points, other]?;
    Ok(Term {
        coefficient,
        classes: Powers::of(powers),
    })
}

/// The covers of degree 4 of a line, modulo 1,000,000,007 and 5, by the square of the class of the first direct image
/// of O(-1).
fn covers(alloc: Global) -> Result<Problem, Fail> {
    problem_of(
        (1, 4, 0),
        &[1, 3],
        two_moduli(alloc, 5)?,
        cover_integrals(alloc)?,
    )
}

fn cover_integrals(alloc: Global) -> Result<Integrals, Fail> {
    let image = Power {
        class: Class::R1 { k: 1 },
        power: 2,
    };
    let term = Term {
        coefficient: 1,
        classes: Powers::of(vec![in alloc; image]?),
    };
    let integrals = vec![in alloc; Terms::of(vec![in alloc; term]?)]?;
    Ok(Integrals::of(integrals))
}

/// The sums over a block, if all words are units. The second time they are read from a table that is filled.
fn sums_over(
    rt: &impl Abort,
    alloc: Global,
    problem: &Problem,
    first: u64,
    stop: u64,
) -> Result<Option<[u64; 64]>, Fail> {
    let (table, mut seats) = problem_table(alloc, problem, 1)?;
    let Some(mut seat) = seats.pop() else {
        return Err("no seat".into());
    };
    let sums = block_sums(problem, &table, &mut seat, first, stop)?;
    assert!(rt; block_sums(problem, &table, &mut seat, first, stop)? == sums);
    Ok(sums)
}

fn block_sums(
    problem: &Problem,
    table: &FactorTable,
    seat: &mut FactorSeat,
    first: u64,
    stop: u64,
) -> Result<Option<[u64; 64]>, Fail>
    requires table { IsTableOf (problem_view problem.now) table.now }
    requires seat { IsSeatOf seat.old table.now }
    ensures { IsSeatOf seat.new table.now }
{
    if first >= stop || stop > problem.shape.count() {
        return Err("no such block".into());
    }
    let sum = TableSum::of(problem, table);
    let mut sums = [0; 64];
    match sum.add_block(seat, first, stop, &mut sums) {
        Ok(()) => Ok(Some(sums)),
        Err(NoUnit) => Ok(None),
    }
}

#[test]
fn covers_of_a_line(rt: HostRuntime) -> Result<(), Fail> {
    let alloc = rt.alloc();
    let problem = covers(alloc)?;
    for (first, stop, known) in [
        (0, 64, [516_276_046, 0]),
        (0, 65, [945_963_549, 3]),
        (0, 116, [284_505_208, 4]),
        (51, 115, [1_000_000_003, 1]),
    ] {
        let sums = sums_over(&rt, alloc, &problem, first, stop)?.ok_or("no unit")?;
        assert_eq!(rt; &sums[..2], known.as_slice(), "from {first} to {stop}");
    }
    // The trees of 5 vertices, from number 116 on, are bad for the modulus 5, which divides 5!.
    assert!(rt; sums_over(&rt, alloc, &problem, 100, 117)?.is_none());
    Ok(())
}

#[test]
fn a_word_that_is_no_unit(rt: HostRuntime) -> Result<(), Fail> {
    let alloc = rt.alloc();
    // 1 + 120 - 2 * 10 is 101, so an edge of degree 2 between the colours 0 and 2 is bad for the second modulus.
    let problem = conics(alloc, &[1, 10, 120])?;
    assert!(rt; sums_over(&rt, alloc, &problem, 0, 2)?.is_some());
    assert!(rt; sums_over(&rt, alloc, &problem, 0, 3)?.is_none());
    Ok(())
}
