//! The integrals of a problem text.

ghost use Rattle.std.specs.Prelude.{◌≡◌, ◌≤◌, ◌+◌, IfOk, All, length, sum_by};
ghost use Rattle.toml.specs.View.{table_view, items_view};
ghost use Rattle.problem.specs.Rules.{IsTerm};
ghost use Rattle.problem_toml.specs.Integrals.{integral_of, integrals_from, integrals_of};
ghost use Rattle.problem_toml.specs.Steps.{Gives};
ghost use Rattle.problem_toml.specs.Tables.{tables_among};
ghost use Rattle.problem_toml.specs.Versions.{most_listed};

use crate::error::ProblemError;
use crate::name::Name;
use crate::place::Place;
use crate::table::{check_count, check_known, tables, value_at};
use crate::terms::terms;
use crate::version::Version;
use residue::{Term, Terms};
use std::alloc::Global;
use toml::{Table, Value};

const INTEGRAL_KEYS: [Name; 1] = [Name::Term];

const MOST_TERMS: u32 = 32;

// The integral with the index `integral`. Those before it have `before` terms together.
#[tactic(auto, unfolding(crate::specs::Integrals::integral_of))]
fn integral(
    alloc: Global,
    marks: u8,
    integral: u32,
    before: u32,
    table: &Table,
) -> Result<Vec<Term>, ProblemError>
    requires { before ≤ 32 }
    ensures read { Gives (λ terms. terms.items) result (integral_of marks integral before (table_view table.now)) }
    ensures limits { IfOk result (λ terms. All (IsTerm marks) terms.items) }
    ensures least { IfOk result (λ terms. 1 ≤ length terms.items) }
    ensures most { IfOk result (λ terms. before + length terms.items ≤ 32) }
{
    let place = Place::Integral { integral };
    value_at(table, place, Name::Term)?;
    check_known(alloc, table, place, &INTEGRAL_KEYS)?;
    let values = tables(table, place, Name::Term)?;
    check_count(
        place,
        Name::Term,
        1,
        (MOST_TERMS - before) as usize,
        values.len(),
    )?;
    terms(alloc, Version::Two, marks, before, values)
}

#[tactic(auto, using(crate::proofs::IntegralArrays::integrals_fail, crate::proofs::IntegralArrays::integrals_all, crate::proofs::IntegralArrays::integrals_counted))]
fn listed_integrals(alloc: Global, marks: u8, values: &[Value]) -> Result<Vec<Terms>, ProblemError>
    requires { length values.now ≤ 8 }
    ensures read { Gives (λ integrals. integrals.items) result (integrals_from marks 0 0 (tables_among (items_view values.now))) }
    ensures count { IfOk result (λ integrals. length integrals.items ≡ length (tables_among (items_view values.now))) }
    ensures limits { IfOk result (λ integrals. All (All (IsTerm marks)) integrals.items) }
    ensures least { IfOk result (λ integrals. All (λ terms. 1 ≤ length terms) integrals.items) }
    ensures most { IfOk result (λ integrals. sum_by length integrals.items ≤ 32) }
{
    let mut integrals = Vec::new(alloc);
    let mut before = 0;
    for value in values {
        if let Some(table) = value.as_table() {
            let place = integrals.len() as u32;
            let terms = integral(alloc, marks, place, before, table)?;
            before += terms.len() as u32;
            integrals.push(Terms::of(terms))?;
        }
    }
    Ok(integrals)
}

/// The integrals of the tables that are listed at the top.
pub fn integrals(
    alloc: Global,
    version: Version,
    marks: u8,
    values: &[Value],
) -> Result<Vec<Terms>, ProblemError>
    requires least { 1 ≤ length values.now }
    requires most { length values.now ≤ most_listed version }
    requires tables { length (tables_among (items_view values.now)) ≡ length values.now }
    ensures read { Gives (λ integrals. integrals.items) result (integrals_of version marks (tables_among (items_view values.now))) }
    ensures some { IfOk result (λ integrals. 1 ≤ length integrals.items) }
    ensures few { IfOk result (λ integrals. length integrals.items ≤ 8) }
    ensures limits { IfOk result (λ integrals. All (All (IsTerm marks)) integrals.items) }
    ensures least_terms { IfOk result (λ integrals. All (λ terms. 1 ≤ length terms) integrals.items) }
    ensures most_terms { IfOk result (λ integrals. sum_by length integrals.items ≤ 32) }
{
    match version {
        Version::One => {
            let terms = terms(alloc, version, marks, 0, values)?;
            let mut integrals = Vec::new(alloc);
            integrals.push(Terms::of(terms))?;
            Ok(integrals)
        }
        Version::Two => listed_integrals(alloc, marks, values),
    }
}
