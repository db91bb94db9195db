//! The numbers whose trees are bad, and the moduli for which they are.

ghost use Rattle.std.specs.Prelude.{◌≡◌, ◌≢◌, ◌<◌, ◌≤◌, ◌↔◌, true, IfSome, IsNone, length, slice_index};
ghost use Rattle.localisation.specs.Agreement.{is_bad_for, IsFirstBad, IsLeastBad, NoneBad};
ghost use Rattle.problem.specs.Problems.{view as problem_view};
ghost use Rattle.problem.specs.Sums.{count_of, is_bad_modulo, is_bad_of};

use crate::at_tree::{parts_of, tree_residue};
use problem::Problem;
use tree_parts::TreeParts;

/// The index of the first modulus for which the tree of the number `k` is bad: for which its contribution to some
/// integral has no residue. `None` if and only if the number is not bad. The number is below the number of decorated
/// trees of the problem. It takes no memory.
pub fn first_bad_modulus(problem: &Problem, k: u64) -> Option<u8>
    requires within { k < count_of (problem_view problem.now) }
    ensures none { IsNone result ↔ (is_bad_of (problem_view problem.now) k ≢ true) }
    ensures first { IfSome result (IsFirstBad (is_bad_modulo (problem_view problem.now) k) problem.now.moduli) }
{
    let tree = problem.shape.tree(k);
    let parts = parts_of(problem, &tree);
    for modulus in 0..problem.moduli.len() as u8 {
        if is_bad_at(problem, &parts, modulus) {
            return Some(modulus);
        }
    }
    None
}

/// The least of the numbers from `start` to `stop - 1` whose tree is bad for some modulus. `None` exactly if there is
/// none.
pub(crate) fn least_bad(problem: &Problem, start: u64, stop: u64) -> Option<u64>
    requires within { stop ≤ count_of (problem_view problem.now) }
    ensures none { IsNone result → NoneBad (is_bad_of (problem_view problem.now)) start stop }
    ensures least { IfSome result (IsLeastBad (is_bad_of (problem_view problem.now)) start stop) }
{
    for k in start..stop {
        if first_bad_modulus(problem, k).is_some() {
            return Some(k);
        }
    }
    None
}

/// Whether the contribution of a tree to some integral has no residue modulo the modulus with this index.
fn is_bad_at(problem: &Problem, parts: &TreeParts, modulus: u8) -> bool
    requires shape { parts.now.shape ≡ problem.now.shape }
    requires modulus_within { modulus < length problem.now.moduli }
    ensures { result ≡ is_bad_for problem.now.setup problem.now.integrals parts.now.tree
        (slice_index problem.now.moduli modulus) }
{
    for integral in 0..problem.integrals.len() {
        if tree_residue(problem, integral as u8, parts, modulus).is_err() {
            return true;
        }
    }
    false
}
