//! A job of a batch.

ghost use Rattle.std.specs.Prelude.{◌≡◌};
ghost use Rattle.factor_table.specs.Seats.{IsSeatOf};
ghost use Rattle.table_sum.specs.Problems.{IsTableOf};
ghost use Rattle.job_batch.specs.Ends.{IsFresh, IsJobEnd};

use crate::alone::{BadNumber, run_alone};
use checkpoint::State;
use factor_table::FactorTable;
use sum_job::PartSum;
use table_sum::TableSum;

/// A job that has ended.
#[derive(Drop)]
pub(crate) struct EndedJob {
    // Its place among the states.
    pub(crate) place: u32,
    // The residues at the first places, integral by integral and within one integral modulus by modulus.
    pub(crate) sums: [u64; 64],
    // The bad number that it met. Then the residues are of no use.
    pub(crate) bad: Option<BadNumber>,
}

/// Runs the job of a state, over the table of its problem. It takes no memory.
pub(crate) fn run_job(
    state: &State,
    table: &FactorTable,
    part: &mut PartSum,
    place: u32,
) -> EndedJob
    requires fresh { IsFresh state.now }
    requires table { IsTableOf state.now.problem table.now }
    requires seat { IsSeatOf part.old.seat table.now }
    ensures place { result.place ≡ place }
    ensures end { IsJobEnd state.now result.bad result.sums }
    ensures seat { IsSeatOf part.new.seat table.now }
{
    let problem = state.problem();
    let sum = TableSum::of(problem, table);
    let places = problem.integrals.len() * problem.moduli.len();
    let mut sums = [0; 64];
    let bad = run_alone(&sum, part, &mut sums[..places]);
    EndedJob { place, sums, bad }
}
