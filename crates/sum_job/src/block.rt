//! The sum of a block.

ghost use Rattle.std.specs.Prelude.{◌≡◌, ◌<◌, ◌≤◌, length, IfSome, IsNone};
ghost use Rattle.localisation.specs.Agreement.{IsLeastBad, NoneBad};
ghost use Rattle.problem.specs.Problems.{view as problem_view};
ghost use Rattle.problem.specs.Sums.{count_of, is_bad_of};
ghost use Rattle.factor_table.specs.Seats.{IsSeatOf};
ghost use Rattle.table_sum.specs.Words.{IsLater};
ghost use Rattle.table_sum.specs.Sums.{problem_of, table_of, KnowsTrees};
ghost use Rattle.sum_job.specs.Parts.{AreReduced, GrewByNumbers, IsReadyFor, IsAdded};

use crate::part::PartSum;
use crate::sums::add_residues;
use problem::Problem;
use range_sum::{NONE_BAD, sum_range};
use table_sum::TableSum;

/// Adds the contributions of the trees of the numbers from `start` to `stop - 1` to a part, or returns the least of
/// these numbers that is bad; the sums are as before then. The table is asked first, so that afterwards the part's seat
/// knows the edges of these trees, whatever the answer is. If a word is no unit, the block is summed without the table.
/// It takes no memory.
pub(crate) fn add_block(sum: &TableSum, part: &mut PartSum, start: u64, stop: u64) -> Option<u64>
    requires order { start < stop }
    requires within { stop ≤ count_of (problem_view (problem_of sum.now)) }
    requires ready { IsReadyFor (problem_view (problem_of sum.now)) part.old }
    requires seat { IsSeatOf part.old.seat (table_of sum.now) }
    ensures least { IfSome result (IsLeastBad (is_bad_of (problem_view (problem_of sum.now))) start stop) }
    ensures none { IsNone result → NoneBad (is_bad_of (problem_view (problem_of sum.now))) start stop }
    ensures kept { part.new.least ≡ part.old.least }
    ensures added { IsNone result → IsAdded (problem_view (problem_of sum.now)) start stop part.old part.new }
    ensures ready { IsReadyFor (problem_view (problem_of sum.now)) part.new }
    ensures seat { IsLater (table_of sum.now) part.old.seat part.new.seat }
    ensures edges { KnowsTrees (problem_view (problem_of sum.now)) (table_of sum.now) part.new.seat start stop }
{
    let shared = sum.add_block(&mut part.seat, start, stop, &mut part.sums);
    match shared {
        Ok(()) => None,
        Err(_) => add_plainly(sum.problem(), &mut part.sums, start, stop),
    }
}

/// Adds the contributions of the trees of the numbers from `start` to `stop - 1` to the sums, or returns the least of
/// these numbers that is bad; the sums are as before then. It takes no memory.
fn add_plainly(problem: &Problem, sums: &mut [u64; 64], start: u64, stop: u64) -> Option<u64>
    requires order { start < stop }
    requires within { stop ≤ count_of (problem_view problem.now) }
    requires reduced { AreReduced (problem_view problem.now) sums.old }
    ensures least { IfSome result (IsLeastBad (is_bad_of (problem_view problem.now)) start stop) }
    ensures none { IsNone result → NoneBad (is_bad_of (problem_view problem.now)) start stop }
    ensures kept { IfSome result (λ _. sums.new ≡ sums.old) }
    ensures added { IsNone result → GrewByNumbers (problem_view problem.now) start stop sums.old sums.new }
    ensures reduced { AreReduced (problem_view problem.now) sums.new }
{
    let total = sum_range(problem, start, stop);
    if total.least != NONE_BAD {
        return Some(total.least);
    }
    add_residues(problem, sums, &total.sums);
    None
}
