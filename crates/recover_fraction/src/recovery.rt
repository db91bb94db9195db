//! A fraction from its residue, by the extended algorithm of Euclid.

ghost use Rattle.std.specs.Prelude.{◌≡◌, ℕ, ◌*◌, ◌^◌, ◌<◌, ◌≤◌, ◌↔◌, ℤ, pos, neg_ℤ, IfSome, IsNone, if◌then◌else◌};
ghost use Rattle.arithmetic.specs.Agreement.{AgreesModulo};

use residue::coprime;

/// A fraction in lowest terms: `top` over `bottom`, which is at least 1.
#[derive(Clone, Copy, Debug, PartialEq, Eq, Drop)]
pub struct Fraction {
    pub top: i64,
    pub bottom: u64,
}

/// The only fraction in lowest terms that has the residue `x` modulo `m`, with a top of size at most `a` and a bottom
/// from 1 to `b`: `m` divides `bottom * x - top`. It is `None` exactly if there is none.
///
/// `x` is below `m`, both bounds are from 1 to 2^62 - 1, and 2 `a` `b` is below `m`.
///
/// This is rational reconstruction (Wang, A p-adic algorithm for univariate partial fractions, 1981; von zur Gathen
/// and Gerhard, Modern Computer Algebra, section 5.10). Each remainder of Euclid's algorithm on `m` and `x` is `x`
/// times a factor modulo `m`; the factors alternate in sign and their sizes grow. The first remainder that is at most
/// `a`, over its factor, is the only candidate.
pub fn recover(x: u128, m: u128, a: u64, b: u64) -> Option<Fraction>
    requires x_below { x < m }
    requires a_positive { 1 ≤ a }
    requires a_limited { a < 2 ^ 62 }
    requires b_positive { 1 ≤ b }
    requires b_limited { b < 2 ^ 62 }
    requires bounds { 2 * a * b < m }
    ensures agrees { IfSome result (λ f. AgreesModulo m x a b f.top f.bottom) }
    ensures only { IfSome result (λ f. (p : ℤ) (q : ℕ) → AgreesModulo m x a b p q → (p ≡ f.top) × (q ≡ f.bottom)) }
    ensures none { IsNone result ↔ ((p : ℤ) (q : ℕ) → ¬ AgreesModulo m x a b p q) }
{
    let (mut larger, mut smaller) = (m, x);
    let (mut of_larger, mut of_smaller) = (0, 1);
    let mut negative = false;
    while smaller > a as u128 {
        let quotient = larger / smaller;
        (larger, smaller) = (smaller, larger % smaller);
        (of_larger, of_smaller) = (of_smaller, of_larger + quotient * of_smaller);
        negative = !negative;
    }
    if of_smaller <= b as u128 && coprime(smaller as u64, of_smaller as u64) {
        Some(Fraction {
            top: with_sign(negative, smaller as u64),
            bottom: of_smaller as u64,
        })
    } else {
        None
    }
}

/// The number `size`, or minus it.
fn with_sign(negative: bool, size: u64) -> i64
    requires { size < 2 ^ 62 }
    ensures { result ≡ (if negative then neg_ℤ (pos size) else pos size) }
{
    let number = size as i64;
    if negative { -number } else { number }
}
