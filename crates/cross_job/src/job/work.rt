//! How a job of several problems is made and worked.

ghost use Rattle.std.specs.Prelude.{◌≡◌, ◌+◌, ◌<◌, ◌≤◌, ◌^◌, ℕ, List, [], ◌∷◌, ◌++◌, All};
ghost use Rattle.std.specs.List.Sorted.{IsPermutation};
ghost use Rattle.problem.specs.Sums.{count_of};
ghost use Rattle.worker_pool.specs.Rounds.{at_most};
ghost use Rattle.sum_job.specs.Parts.{block_count};
ghost use Rattle.cross_job.specs.declared.part.CrossPart.{CrossPart};
ghost use Rattle.cross_job.specs.Cross.{view_of, least_bad_of, lesser, AreReady, StandFor};
ghost use Rattle.cross_job.specs.CrossParts.{parts_of};
ghost use Rattle.cross_job.specs.Jobs.{view};
ghost use Rattle.cross_job.specs.JobFields.{least_below};

use crate::job::CrossJob;
use crate::part::CrossPart;
use claim_table::Block;
use sum_job::{LocusJob, PartSum};
use table_sum::TableSum;
use worker_pool::Job;

/// How many numbers a block has; the last of a job may be shorter.
const BLOCK: u64 = 64;

impl<'a> CrossJob<'a> {
    /// The job of the numbers from `first` to `end - 1`, at least one and at most 65,536; `end` is at most 2^40, and at
    /// most the number of trees of each problem. It takes no memory.
    pub fn new(sums: &'a [TableSum<'a>], first: u64, end: u64) -> CrossJob<'a>
        requires some { first < end }
        requires within { All (λ sum. end ≤ count_of (view_of sum)) sums.now }
        requires few { end ≤ first + 65536 }
        requires limited { end ≤ 2 ^ 40 }
        ensures value { view result ≡ record { sums = sums.now; first = first; end = end } }

        // The order in which a worker worked its blocks does not matter.
        ensures any_order { (part : CrossPart) (pairs others : List (ℕ × ℕ)) → IsPermutation pairs others
            → StandFor (view result) (parts_of part) pairs → StandFor (view result) (parts_of part) others }
    {
        CrossJob { sums, first, end }
    }

    /// The number of blocks, from 1 to 1,024. It takes no memory.
    pub fn blocks(&self) -> u32
        ensures blocks { result ≡ block_count self.now.first self.now.end }
        ensures some { 0 < result }
        ensures few { result ≤ 1024 }
    {
        ((self.end - self.first + (BLOCK - 1)) / BLOCK) as u32
    }

    /// Works a block for each problem, one problem after the other, each with its own part. So the trees of the block are
    /// made once for each problem. It takes no memory.
    fn work_each(&self, parts: &mut [PartSum], block: Block, seen: u64) -> Option<u64>
        requires block { block.number < block_count self.now.first self.now.end }
        requires ready { AreReady (view self.now) parts.old }
        ensures ready { AreReady (view self.now) parts.new }
        ensures stand { (pairs : List (ℕ × ℕ)) → StandFor (view self.now) parts.old pairs
            → StandFor (view self.now) parts.new (pairs ++ (block.number, seen) ∷ []) }
        ensures answer { result ≡ at_most seen (least_bad_of (view self.now) block.number) }
    {
        let mut least = None;
        for index in 0..self.sums.len() {
            let sum = &self.sums[index];
            let job = LocusJob::new(sum, self.first, self.end);
            let bad = job.work(&mut parts[index], block, seen);
            least = lesser(least, bad);
        }
        least
    }
}

impl Job for CrossJob<'_> {
    type Part = CrossPart;

    ghost blocks = { λ job. block_count job.first job.end };

    ghost least_bad = { λ job. least_bad_of (view job) };

    ghost is_ready = { λ job part. AreReady (view job) (parts_of part) };

    ghost stands_for = { λ job part. StandFor (view job) (parts_of part) };

    fn work(&self, part: &mut CrossPart, block: Block, seen: u64) -> Option<u64> {
        self.work_each(part.parts.as_mut_slice(), block, seen)
    }

    ghost bad_below = { λ job block bad _ is. least_below (view job) block bad job.limited is };
}

/// The lesser of two numbers, each of which there may be or not.
fn lesser(one: Option<u64>, other: Option<u64>) -> Option<u64>
    ensures { result ≡ lesser one other }
{
    match (one, other) {
        (Some(one), Some(other)) => Some(one.min(other)),
        (Some(one), None) => Some(one),
        (None, other) => other,
    }
}
