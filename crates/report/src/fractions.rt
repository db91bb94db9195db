//! The fractions of the residues of integrals.

ghost use Rattle.std.specs.Prelude.{◌≡◌, ◌*◌, ◌<◌, ◌≤◌, length, IfOk};
ghost use Rattle.problem.specs.Problems.{view as problem_view};
ghost use Rattle.problem.specs.Sums.{places_of};
ghost use Rattle.report.specs.Fractions.{residues_of, AreSumResidues, IsOnlyFraction, AreFractions};

use problem::Problem;
use recover_fraction::{Fraction, agreeing_fraction};
use residue::NoMemory;
use std::alloc::Global;

/// The fraction of each integral, or `None` if no fraction agrees with its residues.
pub(crate) fn fractions(
    alloc: Global,
    problem: &Problem,
    residues: &[u64],
) -> Result<Vec<Option<Fraction>>, NoMemory>
    requires { AreSumResidues (problem_view problem.now) residues.now }
    ensures { IfOk result (λ found. AreFractions (problem_view problem.now) residues.now found.items) }
{
    let mut found = Vec::new(alloc);
    for integral in 0..problem.integrals.len() {
        found.push(fraction(problem, residues, integral))?;
    }
    Ok(found)
}

/// The fraction of one integral.
fn fraction(problem: &Problem, residues: &[u64], integral: usize) -> Option<Fraction>
    requires residues { AreSumResidues (problem_view problem.now) residues.now }
    requires within { integral < length problem.now.integrals }
    ensures { IsOnlyFraction problem.now.moduli (residues_of (problem_view problem.now) residues.now integral)
        problem.now.top_bound problem.now.bottom_bound result }
{
    agreeing_fraction(
        &problem.moduli,
        residues_of(problem, residues, integral),
        problem.top_bound,
        problem.bottom_bound,
    )
}

/// The residues of one integral, one for each modulus.
pub(crate) fn residues_of<'a>(problem: &Problem, residues: &'a [u64], integral: usize) -> &'a [u64]
    requires enough { places_of (problem_view problem.now) ≤ length residues.now }
    requires within { integral < length problem.now.integrals }
    ensures value { result.now ≡ residues_of (problem_view problem.now) residues.now integral }
    ensures as_many { length result.now ≡ length problem.now.moduli }
{
    let count = problem.moduli.len();
    &residues[integral * count..integral * count + count]
}
