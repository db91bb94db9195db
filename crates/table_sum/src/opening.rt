//! The table of a problem.

ghost use Rattle.std.specs.Prelude.{◌≡◌, ◌≤◌, ◌++◌, [], length, All, IfOk, OnOk};
ghost use Rattle.problem.specs.Problems.{view as problem_view};
ghost use Rattle.factor_table.specs.Seats.{IsSeatOf, known_of};
ghost use Rattle.table_sum.specs.Classes.{classes_of_powers, classes_of_terms, classes_of};
ghost use Rattle.table_sum.specs.Problems.{IsTableOf};

use factor_table::{FactorSeat, FactorTable};
use problem::Problem;
use residue::{Class, NoMemory, Power, Term, Terms};
use std::alloc::Global;

/// A table of a problem's factors in which no word is filled, and so many seats of it, 1 to 64. All of its memory is
/// taken here.
///
/// # Errors
/// `NoMemory` if there is no memory for the table or the seats.
pub fn problem_table(
    alloc: Global,
    problem: &Problem,
    seats: u32,
) -> Result<(FactorTable, Vec<FactorSeat>), NoMemory>
    requires { (1 ≤ seats) × (seats ≤ 64) }
    ensures table { IfOk result (λ r. IsTableOf (problem_view problem.now) r.0) }
    ensures seats { IfOk result (λ r. length r.1.items ≡ seats) }
    ensures seated { IfOk result (λ r. All (λ s. IsSeatOf s r.0 × (known_of s ≡ [])) r.1.items) }
{
    let mut classes = Vec::new(alloc);
    push_integrals(&mut classes, problem.integrals.as_slice())?;
    FactorTable::new(
        alloc,
        &problem.setup,
        problem.shape.d(),
        &problem.moduli,
        classes.as_slice(),
        seats,
    )
}

/// Appends the classes of all integrals, integral by integral.
fn push_integrals(classes: &mut Vec<Class>, integrals: &[Terms]) -> Result<(), NoMemory>
    ensures { OnOk result (classes.new.items ≡ classes.old.items ++ classes_of integrals.now) }
{
    for terms in integrals {
        push_terms(classes, terms.as_slice())?;
    }
    Ok(())
}

/// Appends the classes of the terms of an integral, term by term.
fn push_terms(classes: &mut Vec<Class>, terms: &[Term]) -> Result<(), NoMemory>
    ensures { OnOk result (classes.new.items ≡ classes.old.items ++ classes_of_terms terms.now) }
{
    for term in terms {
        push_powers(classes, term.classes.as_slice())?;
    }
    Ok(())
}

/// Appends the classes of the powers of a term.
fn push_powers(classes: &mut Vec<Class>, powers: &[Power]) -> Result<(), NoMemory>
    ensures { OnOk result (classes.new.items ≡ classes.old.items ++ classes_of_powers powers.now) }
{
    for power in powers {
        classes.push(power.class)?;
    }
    Ok(())
}
