//! The first of several problems for which a number is bad.

ghost use Rattle.std.specs.Prelude.{◌≡◌, ◌≢◌, ◌<◌, ◌↔◌, true, All, IsNone, IfSome};
ghost use Rattle.problem.specs.Sums.{count_of};
ghost use Rattle.cross_job.specs.Cross.{view_of, is_bad_for_some};
ghost use Rattle.cross_job.specs.Found.{IsFirstBadProblem};

use range_sum::first_bad_modulus;
use table_sum::TableSum;

/// A problem for which a number is bad.
#[derive(Clone, Copy, Debug, PartialEq, Eq, Drop)]
pub struct BadProblem {
    /// The index of the problem.
    pub problem: usize,
    /// The index of the first of its moduli for which the number is bad.
    pub modulus: u8,
}

/// The first of some problems for which a number is bad; the number is below the number of trees of each. `None` if and
/// only if it is bad for none. It takes no memory.
pub fn first_bad_problem(sums: &[TableSum], number: u64) -> Option<BadProblem>
    requires within { All (λ sum. number < count_of (view_of sum)) sums.now }
    ensures none { IsNone result ↔ (is_bad_for_some sums.now number ≢ true) }
    ensures first { IfSome result (IsFirstBadProblem sums.now number) }
{
    for problem in 0..sums.len() {
        if let Some(modulus) = first_bad_modulus(sums[problem].problem(), number) {
            return Some(BadProblem { problem, modulus });
        }
    }
    None
}
