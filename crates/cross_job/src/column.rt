//! The sums of all workers for one of several problems.

ghost use Rattle.std.specs.Prelude.{◌≡◌, ℕ, ◌+◌, ◌%◌, ◌<◌, ◌≤◌, All, length, slice_index, sum_by};
ghost use Rattle.localisation.specs.Agreement.{modulus_at};
ghost use Rattle.problem.specs.Problems.{view as problem_view};
ghost use Rattle.problem.specs.Sums.{places_of};
ghost use Rattle.sum_job.specs.Parts.{AreReduced, GrewByNumbers};
ghost use Rattle.cross_job.specs.Cross.{HasColumn};
ghost use Rattle.cross_job.specs.CrossParts.{parts_of, sum_at};
ghost use Rattle.cross_job.specs.Totals.{HaveTotal};

use crate::part::CrossPart;
use problem::Problem;
use sum_job::add_residues;

/// Adds the sums of some parts for the problem at an index to residues of this problem, one for each integral and
/// modulus, modulo their moduli. It takes no memory.
pub fn add_column(problem: &Problem, index: usize, residues: &mut [u64], parts: &[CrossPart])
    requires long { places_of (problem_view problem.now) ≤ length residues.old }
    requires reduced { AreReduced (problem_view problem.now) residues.old }
    requires columns { All (λ part. HasColumn (problem_view problem.now) index (parts_of part)) parts.now }
    ensures added { (place : ℕ) → place < places_of (problem_view problem.now)
        → slice_index residues.new place
        ≡ (slice_index residues.old place + sum_by (sum_at index place) parts.now) % modulus_at problem.now.moduli place }
    ensures reduced { AreReduced (problem_view problem.now) residues.new }
    ensures rest { (place : ℕ) → places_of (problem_view problem.now) ≤ place
        → slice_index residues.new place ≡ slice_index residues.old place }

    // If the parts are those of a round without a bad number, the residues grew by those of the numbers of the round.
    ensures grew { (first end : ℕ) → HaveTotal (problem_view problem.now) first end index parts.now
        → GrewByNumbers (problem_view problem.now) first end residues.old residues.new }
{
    for part in parts {
        add_residues(problem, residues, part.sums(index));
    }
}
