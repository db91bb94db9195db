//! Several problems with their tables.

ghost use Rattle.std.specs.Prelude.{◌≡◌, IfOk, map};
ghost use Rattle.table_sum.specs.Problems.{IsTableOf};
ghost use Rattle.problem.specs.Problems.{view as problem_view};
ghost use Rattle.cross_job.specs.Cross.{Match};
ghost use Rattle.table_sum.specs.Sums.{problem_of, table_of};

use factor_table::FactorTable;
use lists::NoMemory;
use problem::Problem;
use std::alloc::Global;
use table_sum::TableSum;

/// The sums of some problems, each with its table.
///
/// # Errors
/// `NoMemory` if there is no memory for the list.
pub fn table_sums<'a>(
    alloc: Global,
    problems: &'a [Problem],
    tables: &'a [FactorTable],
) -> Result<Vec<TableSum<'a>>, NoMemory>
    requires tables { Match (λ table problem. IsTableOf (problem_view problem) table) tables.now problems.now }
    ensures problems { IfOk result (λ sums. map problem_of sums.items ≡ problems.now) }
    ensures tables { IfOk result (λ sums. map table_of sums.items ≡ tables.now) }
{
    let mut sums = Vec::with_capacity(alloc, problems.len())?;
    for index in 0..problems.len() {
        sums.push(TableSum::of(&problems[index], &tables[index]))?;
    }
    Ok(sums)
}
