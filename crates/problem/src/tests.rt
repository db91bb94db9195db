//! Parts that make a problem, and those that break one rule, most of them by one.

use super::*;
use decorated_tree::Shape;
use residue::{Class, Integrals, Moduli, Modulus, Power, Powers, Setup, Term, Terms};
use std::alloc::Global;
use std::test::Fail;

/// The square of the first direct image of O(-1), of degree 2 on the conics.
const SQUARE: [Power; 1] = [Power {
    class: Class::R1 { k: 1 },
    power: 2,
}];

fn shape_of((r, d, m): (u8, u8, u8)) -> Result<Shape, Fail> {
    match Shape::new(r, d, m) {
        Ok(shape) => Ok(shape),
        Err(_) => Err("no shape".into()),
    }
}

fn moduli_of(alloc: Global, numbers: &[u64]) -> Result<Moduli, Fail> {
    let mut moduli = Vec::new(alloc);
    for number in numbers {
        moduli.push(Modulus::new(*number)?)?;
    }
    Ok(Moduli::of(moduli))
}

fn term_of(alloc: Global, coefficient: i64, powers: &[Power]) -> Result<Term, Fail> {
    let mut classes = Vec::new(alloc);
    for power in powers {
        classes.push(*power)?;
    }
    Ok(Term {
        coefficient,
        classes: Powers::of(classes),
    })
}

/// So many integrals, each the square so many times.
fn integrals_of(alloc: Global, counts: &[usize]) -> Result<Integrals, Fail> {
    let mut integrals = Vec::new(alloc);
    for count in counts {
        let mut terms = Vec::new(alloc);
        for _ in 0..*count {
            terms.push(term_of(alloc, 1, &SQUARE)?)?;
        }
        integrals.push(Terms::of(terms))?;
    }
    Ok(Integrals::of(integrals))
}

/// The problem of double covers of a line with these parts.
fn covers(
    alloc: Global,
    weights: &[i64],
    moduli: &[u64],
    bounds: (u64, u64),
    counts: &[usize],
) -> Result<Option<Problem>, Fail> {
    Ok(Problem::new(
        shape_of((1, 2, 0))?,
        Setup::new(weights)?,
        moduli_of(alloc, moduli)?,
        bounds.0,
        bounds.1,
        integrals_of(alloc, counts)?,
    ))
}

#[test]
fn a_problem_has_the_parts_that_it_is_made_of(rt: HostRuntime) -> Result<(), Fail> {
    let problem = covers(
        rt.alloc(),
        &[1, 10],
        &[1_000_000_007, 101],
        (70, 90),
        &[1, 2],
    )?;
    let problem = problem.ok_or("no problem")?;
    assert_eq!(rt;
        (problem.shape.r(), problem.shape.d(), problem.shape.m()),
        (1, 2, 0)
    );
    assert_eq!(rt; (problem.setup.weight(0), problem.setup.weight(1)), (1, 10));
    assert_eq!(rt; problem.moduli.len(), 2);
    assert_eq!(rt; (problem.top_bound, problem.bottom_bound), (70, 90));
    assert_eq!(rt; problem.integrals.len(), 2);
    Ok(())
}
