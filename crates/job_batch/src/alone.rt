//! A job that one worker runs alone.

ghost use Rattle.std.specs.Prelude.{◌≡◌, ℕ, ◌+◌, ◌<◌, ◌≤◌, List, ◌++◌, true, Option, IfSome, IfNone, replicate};
ghost use Rattle.localisation.specs.Agreement.{IsFirstBad};
ghost use Rattle.problem.specs.Problems.{view as problem_view};
ghost use Rattle.problem.specs.Sums.{count_of, places_of, is_bad_of, is_bad_modulo};
ghost use Rattle.lists.specs.Ranges.{below};
ghost use Rattle.claim_table.specs.Counts.{nothing_bad};
ghost use Rattle.worker_pool.specs.Rounds.{IsLeastOfRound, all_clean};
ghost use Rattle.checkpoint.specs.States.{AreResidues};
ghost use Rattle.factor_table.specs.Seats.{IsSeatOf};
ghost use Rattle.table_sum.specs.Sums.{problem_of, table_of};
ghost use Rattle.sum_job.specs.Jobs.{view};
ghost use Rattle.sum_job.specs.Parts.{block_count, least_bad_of, IsReady, StandsFor};
ghost use Rattle.job_batch.specs.Ends.{start_of, IsEnd, or_nothing, IsRoundEnd, outcome_with};

use claim_table::{Block, NOTHING_BAD};
use problem::Problem;
use range_sum::first_bad_modulus;
use sum_job::{LocusJob, PartSum, add_residues};
use table_sum::TableSum;
use worker_pool::Job;

/// How many numbers a round has; the last may have fewer.
const ROUND: u64 = 65_536;

/// A bad number, and the index of the first modulus for which its tree is bad.
#[derive(Clone, Copy, Debug, PartialEq, Eq, Drop)]
pub(crate) struct BadNumber {
    pub(crate) number: u64,
    pub(crate) modulus: u8,
}

/// Sums all trees of a problem, in rounds of 65,536 numbers, and adds the sums to the residues, which are 0; or returns
/// the least bad number of the first round that has one, and then the residues are of no use. What the part held before
/// does not matter, but for its seat. It takes no memory.
pub(crate) fn run_alone(
    sum: &TableSum,
    part: &mut PartSum,
    residues: &mut [u64],
) -> Option<BadNumber>
    requires residues { residues.old ≡ replicate (places_of (problem_view (problem_of sum.now))) 0 }
    requires seat { IsSeatOf part.old.seat (table_of sum.now) }
    ensures end { IsEnd (start_of (problem_view (problem_of sum.now))) (outcome_with result residues.new) }
    ensures seat { IsSeatOf part.new.seat (table_of sum.now) }
{
    let count = sum.problem().shape.count();
    let mut at = 0;
    while at < count {
        let stop = at + ROUND.min(count - at);
        if let Some(bad) = sum_round(sum, part, at, stop, residues) {
            return Some(bad);
        }
        at = stop;
    }
    None
}

/// Sums the numbers from `first` to `end - 1`, and adds the sums to the residues; or returns the least bad number, and
/// then the residues are of no use.
fn sum_round(
    sum: &TableSum,
    part: &mut PartSum,
    first: u64,
    end: u64,
    residues: &mut [u64],
) -> Option<BadNumber>
    requires some { first < end }
    requires within { end ≤ count_of (problem_view (problem_of sum.now)) }
    requires few { end ≤ first + 65536 }
    requires residues { AreResidues (problem_view (problem_of sum.now)) residues.old }
    requires seat { IsSeatOf part.old.seat (table_of sum.now) }
    ensures summed { IsRoundEnd (problem_view (problem_of sum.now)) first end residues.old residues.new result }
    ensures seat { IsSeatOf part.new.seat (table_of sum.now) }
{
    part.clear();
    let problem = sum.problem();
    let job = LocusJob::new(sum, first, end);
    if let Some(number) = work_blocks(&job, part) {
        return Some(bad_number(problem, number));
    }
    add_residues(problem, residues, &part.sums);
    None
}

/// Works the blocks of a job in order, up to the first that has a bad number, whose least it returns.
fn work_blocks(job: &LocusJob, part: &mut PartSum) -> Option<u64>
    requires ready { IsReady (view job.now) part.old }
    ensures ready { IsReady (view job.now) part.new }
    ensures least { IsLeastOfRound (least_bad_of (view job.now)) (block_count job.now.first job.now.end) (or_nothing result) }
    ensures some { IfSome result (λ number. number < nothing_bad) }
    ensures clean { IfNone result ((pairs : List (ℕ × ℕ)) → StandsFor (view job.now) part.old pairs
        → StandsFor (view job.now) part.new (pairs ++ all_clean (below (block_count job.now.first job.now.end)))) }
{
    for number in 0..job.blocks() {
        if let Some(bad) = job.work(part, Block { number }, NOTHING_BAD) {
            return Some(bad);
        }
    }
    None
}

/// A bad number with the first modulus for which its tree is bad.
fn bad_number(problem: &Problem, number: u64) -> BadNumber
    requires within { number < count_of (problem_view problem.now) }
    requires bad { is_bad_of (problem_view problem.now) number ≡ true }
    ensures number { result.number ≡ number }
    ensures first { IsFirstBad (is_bad_modulo (problem_view problem.now) number) problem.now.moduli result.modulus }
{
    match first_bad_modulus(problem, number) {
        Some(modulus) => BadNumber { number, modulus },
        None => unreachable!(),
    }
}
