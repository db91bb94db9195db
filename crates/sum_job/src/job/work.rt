//! How a job is made and worked.

ghost use Rattle.std.specs.Prelude.{◌≡◌, ℕ, ◌+◌, ◌<◌, ◌≤◌, List, Some};
ghost use Rattle.std.specs.List.Sorted.{IsPermutation};
ghost use Rattle.problem.specs.Problems.{view as problem_view};
ghost use Rattle.problem.specs.Sums.{count_of};
ghost use Rattle.worker_pool.specs.Rounds.{at_most};
ghost use Rattle.table_sum.specs.Sums.{problem_of, table_of};
ghost use Rattle.sum_job.specs.Parts.{block_count, block_start, block_stop, least_bad_of, least_with, IsReady, StandsFor};
ghost use Rattle.sum_job.specs.Jobs.{view};
ghost use Rattle.sum_job.specs.declared.part.PartSum.{PartSum};
ghost use Rattle.sum_job.specs.JobFields.{least_below};

use crate::block::add_block;
use crate::job::LocusJob;
use crate::part::PartSum;
use claim_table::Block;
use table_sum::TableSum;
use worker_pool::Job;

/// How many numbers a block has; the last of a job may be shorter.
const BLOCK: u64 = 64;

impl<'a> LocusJob<'a> {
    /// The job of the numbers from `first` to `end - 1`, at least one and at most 65,536; `end` is at most the number
    /// of trees of the problem. It takes no memory, and divides nothing.
    pub fn new(sum: &'a TableSum<'a>, first: u64, end: u64) -> LocusJob<'a>
        requires some { first < end }
        requires within { end ≤ count_of (problem_view (problem_of sum.now)) }
        requires few { end ≤ first + 65536 }
        ensures value { view result ≡ record {
          problem = problem_view (problem_of sum.now);
          table = table_of sum.now;
          first = first;
          end = end;
        } }

        // The order in which a worker worked its blocks does not matter.
        ensures any_order { (part : PartSum) (pairs others : List (ℕ × ℕ)) → IsPermutation pairs others
            → StandsFor (view result) part pairs → StandsFor (view result) part others }
    {
        LocusJob { sum, first, end }
    }

    /// The number of blocks, from 1 to 1,024. It takes no memory.
    pub fn blocks(&self) -> u32
        ensures blocks { result ≡ block_count self.now.first self.now.end }
        ensures some { 0 < result }
        ensures few { result ≤ 1024 }
    {
        ((self.end - self.first + (BLOCK - 1)) / BLOCK) as u32
    }

    /// The first number of a block, and the number past its last.
    fn bounds(&self, block: Block) -> (u64, u64)
        requires { block.number < block_count self.now.first self.now.end }
        ensures start { result.0 ≡ block_start (view self.now) block.number }
        ensures stop { result.1 ≡ block_stop (view self.now) block.number }
        ensures order { result.0 < result.1 }
        ensures within { result.1 ≤ count_of (problem_view (problem_of self.now.sum.now)) }
    {
        let start = self.first + BLOCK * block.number as u64;
        (start, self.end.min(start + BLOCK))
    }
}

impl Job for LocusJob<'_> {
    type Part = PartSum;

    ghost blocks = { λ job. block_count job.first job.end };

    ghost least_bad = { λ job. least_bad_of (view job) };

    ghost is_ready = { λ job. IsReady (view job) };

    ghost stands_for = { λ job. StandsFor (view job) };

    // A block that lies above the least bad number that was seen is passed over.
    fn work(&self, part: &mut PartSum, block: Block, seen: u64) -> Option<u64> {
        let (start, stop) = self.bounds(block);
        if start > seen {
            return None;
        }
        match add_block(self.sum, part, start, stop) {
            Some(least) => told(part, least, seen),
            None => None,
        }
    }

    ghost bad_below = { λ job block bad _ is.
        least_below (view job) block bad job.within (problem_of job.sum.now).rules.few_trees is };
}

/// What a worker answers of the least bad number `least` of a block if it has seen the bad number `seen`: nothing if
/// `least` is above `seen`, and otherwise `least`, which the part then keeps if it is less than those before.
fn told(part: &mut PartSum, least: u64, seen: u64) -> Option<u64>
    ensures answer { result ≡ at_most seen (Some least) }
    ensures least { part.new.least ≡ least_with part.old.least result }
    ensures sums { part.new.sums ≡ part.old.sums }
    ensures seat { part.new.seat ≡ part.old.seat }
{
    if least > seen {
        return None;
    }
    part.least = part.least.min(least);
    Some(least)
}
