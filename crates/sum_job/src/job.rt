//! A range of numbers as a job.

mod work;

ghost use Rattle.std.specs.Prelude.{◌+◌, ◌<◌, ◌≤◌};
ghost use Rattle.problem.specs.Problems.{view as problem_view};
ghost use Rattle.problem.specs.Sums.{count_of};
ghost use Rattle.table_sum.specs.Sums.{problem_of};

use table_sum::TableSum;

/// The trees of the numbers from `first` to `end - 1` of a problem with its table, at most 65,536, cut into blocks of
/// 64 numbers of which the last may be shorter.
#[derive(Drop)]
pub struct LocusJob<'a> {
    sum: &'a TableSum<'a>,
    first: u64,
    end: u64,
    ghost some: { first < end },
    ghost within: { end ≤ count_of (problem_view (problem_of sum.now)) },
    ghost few: { end ≤ first + 65536 },
}
