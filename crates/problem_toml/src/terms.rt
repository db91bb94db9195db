//! The terms of a problem text.

ghost use Rattle.std.specs.Prelude.{◌≡◌, ◌≤◌, ◌+◌, IfOk, All, length};
ghost use Rattle.toml.specs.View.{table_view, items_view};
ghost use Rattle.problem.specs.Rules.{IsTerm};
ghost use Rattle.problem_toml.specs.Steps.{Gives};
ghost use Rattle.problem_toml.specs.Tables.{tables_among};
ghost use Rattle.problem_toml.specs.Terms.{term_of, terms_from};

use crate::error::ProblemError;
use crate::name::Name;
use crate::place::Place;
use crate::powers::powers;
use crate::table::{check, check_count, check_known, find, integer_or, tables, value_at};
use crate::version::Version;
use residue::{Powers, Term};
use std::alloc::Global;
use toml::{Table, Value};

const TERM_KEYS: [Name; 2] = [Name::Coefficient, Name::Classes];

const MOST_COEFFICIENT: u64 = 1_000_000_000;

const MOST_CLASSES: usize = 16;

#[tactic(auto, unfolding(crate::specs::Terms::term_of))]
fn term(
    alloc: Global,
    version: Version,
    marks: u8,
    number: u32,
    table: &Table,
) -> Result<Term, ProblemError>
    ensures read { Gives (λ term. term) result (term_of version marks number (table_view table.now)) }
    ensures limits { IfOk result (IsTerm marks) }
{
    let place = Place::Term { term: number };
    value_at(table, place, Name::Classes)?;
    check_known(alloc, table, place, &TERM_KEYS)?;
    let coefficient = integer_or(find(table, Name::Coefficient), place, Name::Coefficient, 1)?;
    let classes = tables(table, place, Name::Classes)?;
    check(
        coefficient.unsigned_abs() <= MOST_COEFFICIENT,
        ProblemError::OutOfLimits {
            place,
            name: Name::Coefficient,
        },
    )?;
    check_count(place, Name::Classes, 0, MOST_CLASSES, classes.len())?;
    let powers = powers(alloc, version, marks, number, classes)?;
    Ok(Term {
        coefficient,
        classes: Powers::of(powers),
    })
}

/// The terms of an integral, of which the first has the number `first`. Each value is a table.
#[tactic(auto, using(crate::proofs::TermArrays::terms_fail, crate::proofs::TermArrays::terms_all, crate::proofs::TermArrays::terms_counted))]
pub fn terms(
    alloc: Global,
    version: Version,
    marks: u8,
    first: u32,
    values: &[Value],
) -> Result<Vec<Term>, ProblemError>
    requires { first + length values.now ≤ 32 }
    ensures read { Gives (λ terms. terms.items) result (terms_from version marks first (tables_among (items_view values.now))) }
    ensures limits { IfOk result (λ terms. All (IsTerm marks) terms.items) }
    ensures count { IfOk result (λ terms. length terms.items ≡ length (tables_among (items_view values.now))) }
{
    let mut terms = Vec::new(alloc);
    for value in values {
        if let Some(table) = value.as_table() {
            let number = first + terms.len() as u32;
            let term = term(alloc, version, marks, number, table)?;
            terms.push(term)?;
        }
    }
    Ok(terms)
}
