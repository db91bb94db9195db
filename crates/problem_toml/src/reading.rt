//! Reading a problem text.

ghost use Rattle.std.specs.Prelude.{◌≡◌, ◌≤◌, false, IfOk, length};
ghost use Rattle.std.specs.List.{list_any};
ghost use Rattle.toml.specs.View.{table_view, items_view};
ghost use Rattle.residue.specs.Limits.{is_beyond_limit};
ghost use Rattle.problem.specs.Problems.{view as problem_view};
ghost use Rattle.problem_toml.specs.Header.{written_view, IsHeader};
ghost use Rattle.problem_toml.specs.Reading.{document_of, problem_with, problem_in, reading_of_any_length, reading};
ghost use Rattle.problem_toml.specs.Steps.{Gives};
ghost use Rattle.problem_toml.specs.Tables.{tables_among};
ghost use Rattle.problem_toml.specs.Versions.{most_listed};

use crate::degrees::check_all_degrees;
use crate::error::ProblemError;
use crate::header::{Header, Written, read_header, read_written};
use crate::integrals::integrals;
use crate::moduli::{moduli, setup};
use crate::place::Place;
use crate::table::{check_known, check_present, tables};
use crate::version::{Version, read_version};
use problem::Problem;
use residue::{Integrals, Moduli};
use std::alloc::Global;
use toml::{Table, Value};

const LONGEST: usize = 1_048_576;

#[tactic(auto, using(crate::proofs::Documents::document_ok, crate::proofs::Documents::document_err))]
fn document(alloc: Global, text: &[u8]) -> Result<Table, ProblemError>
    ensures { Gives (λ table. table_view table) result (document_of text.now) }
{
    match toml::table_from_slice(alloc, text) {
        Ok(table) => Ok(table),
        Err(error) if error.is_memory() => Err(ProblemError::NoMemory),
        Err(_) => Err(ProblemError::NotToml),
    }
}

// The rules that need the numbers at the top. The values are the tables of the terms or of the integrals.
#[tactic(auto, unfolding(crate::specs::Reading::problem_with))]
fn problem_with(
    alloc: Global,
    version: Version,
    header: &Header,
    written: &Written,
    values: &[Value],
) -> Result<Problem, ProblemError>
    requires header { IsHeader header.now }
    requires weights { list_any is_beyond_limit written.now.weights.items ≡ false }
    requires least_moduli { 1 ≤ length written.now.moduli.items }
    requires most_moduli { length written.now.moduli.items ≤ 8 }
    requires least { 1 ≤ length values.now }
    requires most { length values.now ≤ most_listed version }
    requires tables { length (tables_among (items_view values.now)) ≡ length values.now }
    ensures { Gives problem_view result (problem_with version header.now (written_view written.now) (tables_among (items_view values.now))) }
{
    let setup = setup(written.weights.as_slice(), header.rank)?;
    let moduli = moduli(alloc, header, written)?;
    let integrals = integrals(alloc, version, header.marks, values)?;
    check_all_degrees(header, integrals.as_slice())?;
    let shape = header.shape()?;
    let moduli = Moduli::of(moduli);
    let integrals = Integrals::of(integrals);
    match Problem::new(
        shape,
        setup,
        moduli,
        header.top_bound,
        header.bottom_bound,
        integrals,
    ) {
        Some(problem) => Ok(problem),
        None => unreachable!(),
    }
}

#[tactic(auto, unfolding(crate::specs::Reading::problem_in))]
fn problem(alloc: Global, table: &Table) -> Result<Problem, ProblemError>
    ensures { Gives problem_view result (problem_in (table_view table.now)) }
{
    let version = read_version(table)?;
    check_present(table, Place::Top, &version.needed())?;
    check_known(alloc, table, Place::Top, &version.known())?;
    let written = read_written(alloc, table)?;
    let values = tables(table, Place::Top, version.list_key())?;
    let header = read_header(version, &written, values.len())?;
    problem_with(alloc, version, &header, &written, values)
}

#[tactic(auto, unfolding(crate::specs::Reading::reading_of_any_length))]
fn read_any_length(alloc: Global, text: &[u8]) -> Result<Problem, ProblemError>
    ensures { Gives problem_view result (reading_of_any_length text.now) }
{
    let table = document(alloc, text)?;
    problem(alloc, &table)
}

/// Reads a problem text, of version 1 or 2.
///
/// # Errors
/// The first rule that the text breaks, in their order: [`ProblemError`] says what each refuses.
#[tactic(auto, unfolding(crate::specs::Reading::reading))]
pub fn read(alloc: Global, text: &[u8]) -> Result<Problem, ProblemError>
    ensures { Gives problem_view result (reading text.now) }
{
    if text.len() > LONGEST {
        return Err(ProblemError::TooLong);
    }
    read_any_length(alloc, text)
}
