//! Rows of residues that are added up.

ghost use Rattle.std.specs.Prelude.{◌≡◌, ℕ, ◌+◌, ◌%◌, ◌<◌, ◌≤◌, All, length, slice_index, sum_by};
ghost use Rattle.localisation.specs.Agreement.{modulus_at};
ghost use Rattle.problem.specs.Problems.{view as problem_view};
ghost use Rattle.problem.specs.Sums.{places_of};
ghost use Rattle.sum_job.specs.Parts.{AreReduced, IsReadyFor, sum_at};

use crate::part::PartSum;
use problem::Problem;

/// Adds residues to others, one for each integral and modulus of a problem, modulo their moduli. Both rows stand
/// integral by integral, and within one integral modulus by modulus. What stands past them stays. It takes no memory.
pub fn add_residues(problem: &Problem, sums: &mut [u64], more: &[u64])
    requires sums_long { places_of (problem_view problem.now) ≤ length sums.old }
    requires more_long { places_of (problem_view problem.now) ≤ length more.now }
    requires sums_reduced { AreReduced (problem_view problem.now) sums.old }
    requires more_reduced { AreReduced (problem_view problem.now) more.now }
    ensures added { (place : ℕ) → place < places_of (problem_view problem.now)
        → slice_index sums.new place
        ≡ (slice_index sums.old place + slice_index more.now place) % modulus_at problem.now.moduli place }
    ensures reduced { AreReduced (problem_view problem.now) sums.new }
    ensures rest { (place : ℕ) → places_of (problem_view problem.now) ≤ place
        → slice_index sums.new place ≡ slice_index sums.old place }
{
    let moduli = problem.moduli.len();
    for place in 0..problem.integrals.len() * moduli {
        let modulus = problem.moduli.get(place % moduli);
        sums[place] = modulus.add(sums[place], more[place]);
    }
}

/// Adds the sums of some parts to residues, one for each integral and modulus of a problem, modulo their moduli. It
/// takes no memory.
pub fn add_parts(problem: &Problem, residues: &mut [u64], parts: &[PartSum])
    requires long { places_of (problem_view problem.now) ≤ length residues.old }
    requires reduced { AreReduced (problem_view problem.now) residues.old }
    requires ready { All (IsReadyFor (problem_view problem.now)) parts.now }
    ensures added { (place : ℕ) → place < places_of (problem_view problem.now)
        → slice_index residues.new place
        ≡ (slice_index residues.old place + sum_by (sum_at place) parts.now) % modulus_at problem.now.moduli place }
    ensures reduced { AreReduced (problem_view problem.now) residues.new }
    ensures rest { (place : ℕ) → places_of (problem_view problem.now) ≤ place
        → slice_index residues.new place ≡ slice_index residues.old place }
{
    for part in parts {
        add_residues(problem, residues, &part.sums);
    }
}
