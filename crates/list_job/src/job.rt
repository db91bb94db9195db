//! A range of numbers as a job that lists their contributions.

mod work;

ghost use Rattle.std.specs.Prelude.{◌+◌, ◌<◌, ◌≤◌};
ghost use Rattle.problem.specs.Problems.{view as problem_view};
ghost use Rattle.problem.specs.Sums.{count_of};
ghost use Rattle.table_sum.specs.Sums.{problem_of};

use table_sum::TableSum;

/// The trees of the numbers from `first` to `end - 1` of a problem with its table, at most 4,096, cut into blocks of 64
/// numbers of which the last may be shorter.
#[derive(Drop)]
pub struct ListJob<'a> {
    pub(crate) sum: &'a TableSum<'a>,
    pub(crate) first: u64,
    pub(crate) end: u64,
    ghost some: { first < end },
    ghost within: { end ≤ count_of (problem_view (problem_of sum.now)) },
    ghost few: { end ≤ first + 4096 },
}
