//! Whether two problems are the same but for their weights.

ghost use Rattle.std.specs.Prelude.{◌≡◌, ◌↔◌, IsTrue, IfOk, IfErr};
ghost use Rattle.problem.specs.Problems.{view as problem_view};
ghost use Rattle.cross_job.specs.Alike.{IsSameButWeights, IsFirstDiffering};

use problem::Problem;
use problem_toml::Name;
use residue::{Modulus, Power, Term, Terms};

/// Two problems are not the same but for their weights.
#[derive(Clone, Copy, Debug, PartialEq, Eq, Drop)]
pub struct Differ {
    /// The key of the first part in which they differ.
    pub name: Name,
}

/// Whether two problems are the same but for their weights. It takes no memory.
///
/// # Errors
/// `Differ` with the first of `rank`, `degree`, `marks`, `moduli`, `numerator_bound`, `denominator_bound` and `integral`
/// in which the two differ. Lists are compared as lists.
pub fn same_but_weights(a: &Problem, b: &Problem) -> Result<(), Differ>
    ensures same { IfOk result (λ _. IsSameButWeights (problem_view a.now) (problem_view b.now)) }
    ensures differ { IfErr result (λ differ. IsFirstDiffering differ.name (problem_view a.now) (problem_view b.now)) }
{
    agree(Name::Rank, a.shape.r() == b.shape.r())?;
    agree(Name::Degree, a.shape.d() == b.shape.d())?;
    agree(Name::Marks, a.shape.m() == b.shape.m())?;
    agree(
        Name::Moduli,
        are_same_moduli(a.moduli.as_slice(), b.moduli.as_slice()),
    )?;
    agree(Name::NumeratorBound, a.top_bound == b.top_bound)?;
    agree(Name::DenominatorBound, a.bottom_bound == b.bottom_bound)?;
    agree(
        Name::Integral,
        are_same_integrals(a.integrals.as_slice(), b.integrals.as_slice()),
    )
}

/// Passes on whether two problems agree in the part of a key.
fn agree(name: Name, same: bool) -> Result<(), Differ>
    ensures same { IfOk result (λ _. IsTrue same) }
    ensures differ { IfErr result (λ differ. ¬ (IsTrue same) × (differ.name ≡ name)) }
{
    if same { Ok(()) } else { Err(Differ { name }) }
}

fn are_same_moduli(a: &[Modulus], b: &[Modulus]) -> bool
    ensures { IsTrue result ↔ (a.now ≡ b.now) }
{
    match (a, b) {
        ([], []) => true,
        ([first, rest @ ..], [other, others @ ..]) => {
            first.get() == other.get() && are_same_moduli(rest, others)
        }
        _ => false,
    }
}

fn are_same_integrals(a: &[Terms], b: &[Terms]) -> bool
    ensures { IsTrue result ↔ (a.now ≡ b.now) }
{
    match (a, b) {
        ([], []) => true,
        ([first, rest @ ..], [other, others @ ..]) => {
            are_same_terms(first.as_slice(), other.as_slice()) && are_same_integrals(rest, others)
        }
        _ => false,
    }
}

fn are_same_terms(a: &[Term], b: &[Term]) -> bool
    ensures { IsTrue result ↔ (a.now ≡ b.now) }
{
    match (a, b) {
        ([], []) => true,
        ([first, rest @ ..], [other, others @ ..]) => {
            is_same_term(first, other) && are_same_terms(rest, others)
        }
        _ => false,
    }
}

fn is_same_term(a: &Term, b: &Term) -> bool
    ensures { IsTrue result ↔ (a.now ≡ b.now) }
{
    a.coefficient == b.coefficient && are_same_powers(a.classes.as_slice(), b.classes.as_slice())
}

fn are_same_powers(a: &[Power], b: &[Power]) -> bool
    ensures { IsTrue result ↔ (a.now ≡ b.now) }
{
    match (a, b) {
        ([], []) => true,
        ([first, rest @ ..], [other, others @ ..]) => {
            first == other && are_same_powers(rest, others)
        }
        _ => false,
    }
}
