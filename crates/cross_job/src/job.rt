//! A range of numbers of several problems as a job.

mod work;

ghost use Rattle.std.specs.Prelude.{◌+◌, ◌<◌, ◌≤◌, ◌^◌, All};
ghost use Rattle.problem.specs.Sums.{count_of};
ghost use Rattle.cross_job.specs.Cross.{view_of};

use table_sum::TableSum;

/// The trees of the numbers from `first` to `end - 1` of some problems with their tables, at most 65,536, cut into blocks
/// of 64 numbers of which the last may be shorter. A number is bad if it is bad for some of the problems.
#[derive(Drop)]
pub struct CrossJob<'a> {
    sums: &'a [TableSum<'a>],
    first: u64,
    end: u64,
    ghost some: { first < end },
    ghost within: { All (λ sum. end ≤ count_of (view_of sum)) sums.now },
    ghost few: { end ≤ first + 65536 },
    ghost limited: { end ≤ 2 ^ 40 },
}
