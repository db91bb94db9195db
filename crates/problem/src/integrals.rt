//! Tests of integrals.

ghost use Rattle.std.specs.Prelude.{◌≤◌, ◌↔◌, IsTrue, All, length, sum_by};
ghost use Rattle.problem.specs.Rules.{IsTermOf, IsIntegralOf};

use crate::degrees::is_term_of;
use decorated_tree::Shape;
use residue::{Term, Terms};

const MOST_INTEGRALS: usize = 8;

const MOST_TERMS: usize = 32;

fn are_terms_of(terms: &[Term], shape: &Shape) -> bool
    ensures { IsTrue result ↔ All (IsTermOf shape.now) terms.now }
{
    terms.iter().all(|term| is_term_of(term, shape))
}

/// Whether an integral has a term, and each of its terms is one of a problem of this shape.
fn is_integral_of(terms: &Terms, shape: &Shape) -> bool
    ensures { IsTrue result ↔ IsIntegralOf shape.now terms.now }
{
    terms.len() > 0 && are_terms_of(terms.as_slice(), shape)
}

fn each_is_integral_of(integrals: &[Terms], shape: &Shape) -> bool
    ensures { IsTrue result ↔ All (IsIntegralOf shape.now) integrals.now }
{
    integrals.iter().all(|terms| is_integral_of(terms, shape))
}

/// Whether the integrals have at most so many terms in all.
fn have_few_terms(integrals: &[Terms], most: usize) -> bool
    ensures { IsTrue result ↔ (sum_by length integrals.now ≤ most) }
{
    match integrals {
        [] => true,
        [first, rest @ ..] => {
            let count = first.len();
            count <= most && have_few_terms(rest, most - count)
        }
    }
}

/// Whether there are 1 to 8 integrals of at most 32 terms in all, each of which is one of a problem of this shape.
pub fn are_integrals(integrals: &[Terms], shape: &Shape) -> bool
    ensures { IsTrue result ↔ ((1 ≤ length integrals.now) × (length integrals.now ≤ 8) × (sum_by length integrals.now ≤ 32) × All (IsIntegralOf shape.now) integrals.now) }
{
    1 <= integrals.len()
        && integrals.len() <= MOST_INTEGRALS
        && have_few_terms(integrals, MOST_TERMS)
        && each_is_integral_of(integrals, shape)
}
