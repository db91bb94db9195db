//! Tests of moduli and of the bounds on a fraction.

ghost use Rattle.std.specs.Prelude.{◌≡◌, ◌*◌, ◌^◌, ◌<◌, ◌≤◌, ◌↔◌, IsTrue, IfSome, IsNone, All, length};
ghost use Rattle.arithmetic.specs.Numbers.{gcd};
ghost use Rattle.lists.specs.Digits.{product_of};
ghost use Rattle.arithmetic.specs.Agreement.{ArePairwiseCoprime};
ghost use Rattle.residue.specs.Limits.{IsModulus};
ghost use Rattle.problem.specs.Rules.{AreModuli, AreBounds};

use residue::{Modulus, coprime};

const MOST_MODULI: usize = 8;

/// The product of moduli, if 128 bits hold it.
pub fn product(moduli: &[Modulus]) -> Option<u128>
    ensures value { IfSome result (λ product. product ≡ product_of moduli.now) }
    ensures none { IsNone result → 2 ^ 128 ≤ product_of moduli.now }
    ensures each { All IsModulus moduli.now }
{
    match moduli {
        [] => Some(1),
        [first, rest @ ..] => {
            let first = first.get();
            let product = product(rest)?;
            product.checked_mul(first as u128)
        }
    }
}

/// Whether only 1 divides a modulus and another one of a list.
fn is_coprime_to(modulus: &Modulus, others: &[Modulus]) -> bool
    ensures { IsTrue result ↔ All (λ other. gcd modulus.now other ≡ 1) others.now }
{
    others
        .iter()
        .all(|other| coprime(modulus.get(), other.get()))
}

/// Whether only 1 divides two of the moduli.
fn are_coprime(moduli: &[Modulus]) -> bool
    ensures { IsTrue result ↔ ArePairwiseCoprime moduli.now }
{
    match moduli {
        [] => true,
        [first, rest @ ..] => is_coprime_to(first, rest) && are_coprime(rest),
    }
}

/// Whether there are 1 to 8 moduli, pairwise coprime and with a product below 2^126.
pub fn are_moduli(moduli: &[Modulus]) -> bool
    ensures { IsTrue result ↔ AreModuli moduli.now }
{
    let Some(product) = product(moduli) else {
        return false;
    };
    1 <= moduli.len() && moduli.len() <= MOST_MODULI && are_coprime(moduli) && product < 1 << 126
}

/// Whether the bounds on a fraction are each from 1 to 2^62 - 1, with 2AB below the product of the moduli. That is below
/// 2^126.
pub fn are_bounds(moduli: &[Modulus], top_bound: u64, bottom_bound: u64) -> bool
    requires { product_of moduli.now < 2 ^ 126 }
    ensures { IsTrue result ↔ AreBounds moduli.now top_bound bottom_bound }
{
    let Some(product) = product(moduli) else {
        return false;
    };
    is_bound(top_bound)
        && is_bound(bottom_bound)
        && 2 * top_bound as u128 * (bottom_bound as u128) < product
}

fn is_bound(bound: u64) -> bool
    ensures { IsTrue result ↔ ((1 ≤ bound) × (bound < 2 ^ 62)) }
{
    1 <= bound && bound < 1 << 62
}
