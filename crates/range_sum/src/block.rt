//! Sums over a block of numbers, which are kept as fractions and divided once.

ghost use Rattle.std.specs.Prelude.{◌≡◌, ℕ, ◌<◌, ◌≤◌, IfSome, IsNone, IsTrue, slice_index};
ghost use Rattle.decorated_tree.specs.Trees.{tree_view, is_tree_of};
ghost use Rattle.localisation.specs.Contribution.{contribution, partial_sum};
ghost use Rattle.localisation.specs.Agreement.{modulus_at, integral_at, IsLeastBad, NoneBad};
ghost use Rattle.problem.specs.Problems.{view as problem_view};
ghost use Rattle.problem.specs.Sums.{count_of, is_bad_of, places_of};
ghost use Rattle.range_sum.specs.Totals.{ratio_at, IsRatioBelow, AddsFraction, AddsResidue, AreRatiosOf};

use crate::at_tree::{parts_of, tree_ratio};
use crate::bad::least_bad;
use decorated_tree::Tree;
use problem::Problem;
use residue::{NoUnit, Ratio};

/// Adds the contributions of the trees of the numbers from `start` to `stop - 1` to the sums, or returns the least of
/// these numbers whose tree is bad for some modulus; the sums then mean nothing. It divides once for each integral and
/// modulus.
pub(crate) fn add_block(
    problem: &Problem,
    start: u64,
    stop: u64,
    sums: &mut [u64; 64],
) -> Option<u64>
    requires order { start < stop }
    requires within { stop ≤ count_of (problem_view problem.now) }
    requires below { (place : ℕ) → place < places_of (problem_view problem.now)
        → slice_index sums.old place < modulus_at problem.now.moduli place }
    ensures least { IfSome result (IsLeastBad (is_bad_of (problem_view problem.now)) start stop) }
    ensures none { IsNone result → NoneBad (is_bad_of (problem_view problem.now)) start stop }
    ensures added { IsNone result → (place : ℕ) → place < places_of (problem_view problem.now)
        → AddsResidue (modulus_at problem.now.moduli place)
        (partial_sum problem.now.setup problem.now.shape start stop
        (integral_at problem.now.moduli problem.now.integrals place))
        (slice_index sums.old place) (slice_index sums.new place) }
    ensures rest { (place : ℕ) → places_of (problem_view problem.now) ≤ place
        → slice_index sums.new place ≡ slice_index sums.old place }
{
    let ratios = block_ratios(problem, start, stop);
    let moduli = problem.moduli.len();
    for place in 0..problem.integrals.len() * moduli {
        let modulus = problem.moduli.get(place % moduli);
        match ratios[place].residue(modulus) {
            Ok(x) => sums[place] = modulus.add(sums[place], x),
            Err(NoUnit) => return least_bad(problem, start, stop),
        }
    }
    None
}

/// The ratios of the sums of the contributions of the trees of the numbers from `start` to `stop - 1`, integral by
/// integral and within one integral modulus by modulus.
fn block_ratios(problem: &Problem, start: u64, stop: u64) -> [Ratio; 64]
    requires order { start < stop }
    requires within { stop ≤ count_of (problem_view problem.now) }
    ensures { AreRatiosOf problem.now.moduli problem.now.integrals
        (partial_sum problem.now.setup problem.now.shape start stop) result }
{
    // 0 over 1, the sum over no tree.
    let mut ratios = [Ratio { top: 0, bottom: 1 }; 64];
    let mut tree = problem.shape.tree(start);
    for k in start..stop {
        add_tree(problem, &tree, &mut ratios);
        if k + 1 < stop {
            problem.shape.next(k, &mut tree);
        }
    }
    ratios
}

/// Adds the contributions of a tree of the problem's shape to the ratios, without a division.
fn add_tree(problem: &Problem, tree: &Tree, ratios: &mut [Ratio; 64])
    requires tree { IsTrue (is_tree_of problem.now.shape tree.now) }
    requires below { (place : ℕ) → place < places_of (problem_view problem.now)
        → IsRatioBelow (modulus_at problem.now.moduli place) (ratio_at ratios.old place) }
    ensures { (place : ℕ) → place < places_of (problem_view problem.now)
        → AddsFraction (modulus_at problem.now.moduli place)
        (contribution problem.now.setup (integral_at problem.now.moduli problem.now.integrals place) (tree_view tree.now))
        (ratio_at ratios.old place) (ratio_at ratios.new place) }
{
    let parts = parts_of(problem, tree);
    let mut place = 0;
    for integral in 0..problem.integrals.len() {
        for modulus in 0..problem.moduli.len() {
            let ratio = tree_ratio(problem, integral as u8, &parts, modulus as u8);
            ratios[place] = ratios[place].plus(ratio, problem.moduli.get(modulus));
            place += 1;
        }
    }
}
