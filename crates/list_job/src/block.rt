//! The entries of a block.

ghost use Rattle.std.specs.Prelude.{◌≡◌, ℕ, ◌+◌, ◌-◌, ◌<◌, ◌≤◌};
ghost use Rattle.problem.specs.Problems.{view as problem_view};
ghost use Rattle.problem.specs.Sums.{count_of};
ghost use Rattle.factor_table.specs.Seats.{IsSeatOf};
ghost use Rattle.table_sum.specs.Words.{IsLater};
ghost use Rattle.table_sum.specs.Sums.{problem_of, table_of, KnowsTrees};
ghost use Rattle.list_job.specs.Entries.{HasEntryOf};
ghost use Rattle.list_job.specs.Parts.{room_of, entry_at};

use crate::entry::entry_of_tree;
use crate::part::ListPart;
use table_sum::TableSum;

/// Fills the places of the numbers from `start` to `stop - 1` with their entries; the places are counted from `first`.
/// All other places stay as they are. It takes no memory.
pub(crate) fn fill_block(sum: &TableSum, part: &mut ListPart, first: u64, start: u64, stop: u64)
    requires from { first ≤ start }
    requires order { start ≤ stop }
    requires room { stop ≤ first + room_of part.old }
    requires within { stop ≤ count_of (problem_view (problem_of sum.now)) }
    requires seat { IsSeatOf part.old.seat (table_of sum.now) }
    ensures room { room_of part.new ≡ room_of part.old }
    ensures filled { (k : ℕ) → start ≤ k → k < stop
        → HasEntryOf (problem_view (problem_of sum.now)) k (entry_at part.new (k - first)) }
    ensures below { (place : ℕ) → first + place < start → entry_at part.new place ≡ entry_at part.old place }
    ensures above { (place : ℕ) → stop ≤ first + place → entry_at part.new place ≡ entry_at part.old place }
    ensures seat { IsLater (table_of sum.now) part.old.seat part.new.seat }
    ensures edges { KnowsTrees (problem_view (problem_of sum.now)) (table_of sum.now) part.new.seat start stop }
{
    for k in start..stop {
        let entry = entry_of_tree(sum, &mut part.seat, k);
        part.entries[(k - first) as usize] = Some(entry);
    }
}
