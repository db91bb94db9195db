//! Problems that are written and read again, and those that a number makes.

use crate::tests::ALL_KINDS;
use crate::{Problem, generated, read, write};
use residue::{Modulus, Setup, Term, Terms};
use std::test::Fail;

fn are_same_weights(setup: &Setup, other: &Setup) -> bool {
    if setup.rank() != other.rank() {
        return false;
    }
    for colour in 0..setup.rank() + 1 {
        if setup.weight(colour) != other.weight(colour) {
            return false;
        }
    }
    true
}

fn are_same_moduli(moduli: &[Modulus], others: &[Modulus]) -> bool {
    moduli.len() == others.len()
        && moduli
            .iter()
            .zip(others)
            .all(|(modulus, other)| modulus.get() == other.get())
}

fn are_same_terms(terms: &Terms, others: &Terms) -> bool {
    let same = |pair: (&Term, &Term)| {
        let (term, other) = pair;
        term.coefficient == other.coefficient && term.classes.as_slice() == other.classes.as_slice()
    };
    terms.len() == others.len() && terms.as_slice().iter().zip(others.as_slice()).all(same)
}

fn is_same(problem: &Problem, other: &Problem) -> bool {
    let integrals = problem.integrals.as_slice();
    let others = other.integrals.as_slice();
    problem.shape == other.shape
        && are_same_weights(&problem.setup, &other.setup)
        && are_same_moduli(problem.moduli.as_slice(), other.moduli.as_slice())
        && (problem.top_bound, problem.bottom_bound) == (other.top_bound, other.bottom_bound)
        && integrals.len() == others.len()
        && integrals
            .iter()
            .zip(others)
            .all(|(terms, others)| are_same_terms(terms, others))
}

#[test]
fn what_is_written_reads_as_the_problem(rt: HostRuntime) -> Result<(), Fail> {
    let alloc = rt.alloc();
    let problem = read(alloc, ALL_KINDS.as_bytes()).ok().ok_or("refused")?;
    let text = write(alloc, &problem).ok().ok_or("no memory")?;
    assert!(rt; text.as_slice() != ALL_KINDS.as_bytes());
    let again = read(alloc, text.as_slice()).ok().ok_or("refused")?;
    assert!(rt; is_same(&problem, &again));
    let other = generated(alloc, 0).ok().ok_or("no memory")?;
    assert!(rt; !is_same(&problem, &other));
    Ok(())
}
