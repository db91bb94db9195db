//! One round.

ghost use Rattle.std.specs.Prelude.{◌≡◌, ◌+◌, ◌<◌, ◌≤◌, ◌^◌, true, All, IfOk, OnOk, OnErr, length, sum};
ghost use Rattle.localisation.specs.Agreement.{IsFirstBad};
ghost use Rattle.problem.specs.Problems.{view as problem_view};
ghost use Rattle.problem.specs.Sums.{count_of, is_bad_of, is_bad_modulo};
ghost use Rattle.checkpoint.specs.States.{AreResidues};
ghost use Rattle.factor_table.specs.Seats.{IsSeatOf};
ghost use Rattle.table_sum.specs.Sums.{problem_of, table_of};
ghost use Rattle.sum_job.specs.Parts.{block_count};
ghost use Rattle.rounds.specs.Outcomes.{IsRoundSum};

use crate::parts::clear_all;
use claim_table::NOTHING_BAD;
use problem::Problem;
use range_sum::first_bad_modulus;
use residue::NoMemory;
use std::alloc::Global;
use std::thread::Threads;
use sum_job::{LocusJob, PartSum, add_parts};
use table_sum::TableSum;
use worker_pool::{Gate, Shares, run_round};

/// A bad tree: its number, and the index of the first modulus for which it is bad.
#[derive(Clone, Copy, Debug, PartialEq, Eq, Drop)]
pub(crate) struct BadTree {
    pub(crate) number: u64,
    pub(crate) modulus: u8,
}

/// Sums the numbers from `first` to `end - 1` on as many workers as there are parts, and adds the sums to the residues;
/// or returns the least bad tree, and then the residues are of no use. What the parts held before does not matter, but
/// for their seats, which are of the table and stay so.
///
/// # Errors
/// `NoMemory` if there is no memory for the claims of the round. It comes before the first tree is summed.
pub(crate) fn sum_round<R: Threads + Sync, G: Gate>(
    rt: &R,
    alloc: Global,
    table: &TableSum,
    first: u64,
    end: u64,
    gate: &G,
    residues: &mut [u64],
    parts: &mut [PartSum],
    shares: &mut Shares,
) -> Result<Option<BadTree>, NoMemory>
    requires some { first < end }
    requires within { end ≤ count_of (problem_view (problem_of table.now)) }
    requires few { end ≤ first + 65536 }
    requires residues { AreResidues (problem_view (problem_of table.now)) residues.old }
    requires parts { (0 < length parts.old) × (length parts.old ≤ 64) }
    requires seats { All (λ part. IsSeatOf part.seat (table_of table.now)) parts.old }
    requires shares { (length shares.old ≡ length parts.old) × All (λ share. share ≤ 2 ^ 62) shares.old }
    ensures summed { IfOk result (IsRoundSum (problem_view (problem_of table.now)) first end residues.old residues.new) }
    ensures blocks { OnOk result (sum shares.new ≡ sum shares.old + block_count first end) }
    ensures workers { OnOk result (length shares.new ≡ length shares.old) }
    ensures seats { OnOk result (All (λ part. IsSeatOf part.seat (table_of table.now)) parts.new) }
{
    clear_all(parts);
    let problem = table.problem();
    let job = LocusJob::new(table, first, end);
    let round = run_round(rt, alloc, &job, gate, job.blocks(), parts, shares)?;
    if round.least_bad != NOTHING_BAD {
        return Ok(Some(bad_tree(problem, round.least_bad)));
    }
    add_parts(problem, residues, parts);
    Ok(None)
}

/// A bad number with the first modulus for which its tree is bad.
fn bad_tree(problem: &Problem, number: u64) -> BadTree
    requires within { number < count_of (problem_view problem.now) }
    requires bad { is_bad_of (problem_view problem.now) number ≡ true }
    ensures number { result.number ≡ number }
    ensures first { IsFirstBad (is_bad_modulo (problem_view problem.now) number) problem.now.moduli result.modulus }
{
    match first_bad_modulus(problem, number) {
        Some(modulus) => BadTree { number, modulus },
        None => unreachable!(),
    }
}
