//! How a job is made and worked.

ghost use Rattle.std.specs.Prelude.{◌≡◌, ℕ, ◌+◌, ◌<◌, ◌≤◌, List, None};
ghost use Rattle.problem.specs.Problems.{view as problem_view};
ghost use Rattle.problem.specs.Sums.{count_of};
ghost use Rattle.table_sum.specs.Sums.{problem_of, table_of};
ghost use Rattle.sum_job.specs.Parts.{block_count, block_start, block_stop};
ghost use Rattle.list_job.specs.declared.entry.Entry.{Entry};
ghost use Rattle.list_job.specs.declared.part.ListPart.{ListPart};
ghost use Rattle.list_job.specs.Parts.{IsReady, StandsFor};
ghost use Rattle.list_job.specs.Listings.{AreAfterRound, AreListing, AreEntries, SumToPartialSums};
ghost use Rattle.list_job.specs.Jobs.{view};
ghost use Rattle.list_job.specs.JobFields.{none_below};

use crate::block::fill_block;
use crate::job::ListJob;
use crate::part::ListPart;
use claim_table::Block;
use table_sum::TableSum;
use worker_pool::Job;

/// How many numbers a block has; the last of a job may be shorter.
const BLOCK: u64 = 64;

impl<'a> ListJob<'a> {
    /// The job of the numbers from `first` to `end - 1`, at least one and at most 4,096; `end` is at most the number of
    /// trees of the problem. It takes no memory, and divides nothing.
    pub fn new(sum: &'a TableSum<'a>, first: u64, end: u64) -> ListJob<'a>
        requires some { first < end }
        requires within { end ≤ count_of (problem_view (problem_of sum.now)) }
        requires few { end ≤ first + 4096 }
        ensures value { view result ≡ record {
          problem = problem_view (problem_of sum.now);
          table = table_of sum.now;
          first = first;
          end = end;
        } }

        // After a round over empty parts each number has its entry in exactly one part.
        ensures once { (parts : List ListPart) → AreAfterRound (view result) parts → AreListing (view result) parts }

        // Where all residues are there, they add up to those of the partial sums of the range.
        ensures sums { (entries : List Entry) → AreEntries (problem_view (problem_of sum.now)) first end entries
            → SumToPartialSums (problem_view (problem_of sum.now)) first end entries }
    {
        ListJob { sum, first, end }
    }

    /// The number of blocks, from 1 to 64. It takes no memory.
    pub fn blocks(&self) -> u32
        ensures blocks { result ≡ block_count self.now.first self.now.end }
        ensures some { 0 < result }
        ensures few { result ≤ 64 }
    {
        ((self.end - self.first + (BLOCK - 1)) / BLOCK) as u32
    }

    /// The first number of a block, and the number past its last.
    fn bounds(&self, block: Block) -> (u64, u64)
        requires { block.number < block_count self.now.first self.now.end }
        ensures start { result.0 ≡ block_start (view self.now) block.number }
        ensures stop { result.1 ≡ block_stop (view self.now) block.number }
        ensures order { result.0 < result.1 }
        ensures within { result.1 ≤ count_of (problem_view (problem_of self.now.sum.now)) }
    {
        let start = self.first + BLOCK * block.number as u64;
        (start, self.end.min(start + BLOCK))
    }
}

impl Job for ListJob<'_> {
    type Part = ListPart;

    ghost blocks = { λ job. block_count job.first job.end };

    // A tree without a residue is no fault of a list.
    ghost least_bad = { λ _ _. None };

    ghost is_ready = { λ job. IsReady (view job) };

    ghost stands_for = { λ job. StandsFor (view job) };

    fn work(&self, part: &mut ListPart, block: Block, _seen: u64) -> Option<u64> {
        let (start, stop) = self.bounds(block);
        fill_block(self.sum, part, self.first, start, stop);
        None
    }

    ghost bad_below = { λ _ _ bad _ is. none_below bad is };
}
