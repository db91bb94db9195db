//! The test of whether a term is within its limits.

ghost use Rattle.std.specs.Prelude.{◌≡◌, ◌≤◌, length, sum_by, All, IsTrue, ◌↔◌};
ghost use Rattle.std.specs.Bool.{OnTrue};
ghost use Rattle.contribution.specs.Terms.{IsTermFor, IsBoundedTerm};

use class_factor::are_powers_for;
use residue::{Power, Term, Terms};

/// Whether each term is within its limits, as [`is_term_for`] says.
pub fn are_terms_for(terms: &Terms, marks: u8) -> bool
    ensures exact { IsTrue result ↔ All (IsBoundedTerm marks) terms.now }
    ensures enough { OnTrue result (All (IsTermFor marks) terms.now) }
{
    each_is_for(terms.as_slice(), marks)
}

/// Whether each term of a slice is within its limits.
fn each_is_for(terms: &[Term], marks: u8) -> bool
    ensures { IsTrue result ↔ All (IsBoundedTerm marks) terms.now }
{
    terms.iter().all(|term| is_term_for(term, marks))
}

/// Whether a term has at most 16 classes, each within its limits, whose powers together are at most 151. Then the
/// exponents of its marks are at most 151 too.
pub fn is_term_for(term: &Term, marks: u8) -> bool
    ensures exact { IsTrue result ↔ IsBoundedTerm marks term.now }
    ensures enough { OnTrue result (IsTermFor marks term.now) }
{
    let powers = term.classes.as_slice();
    if powers.len() > 16 {
        return false;
    }
    let total = total_power(powers);
    if total > 151 {
        return false;
    }
    are_powers_for(powers, marks)
}

/// The sum of the powers of at most 16 classes.
fn total_power(powers: &[Power]) -> u64
    requires { length powers.now ≤ 16 }
    ensures { result ≡ sum_by (λ p. p.power) powers.now }
{
    powers.iter().map(|power| power.power as u64).sum()
}
