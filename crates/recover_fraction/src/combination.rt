//! One number from its residues modulo several moduli, by Garner's method.

ghost use Rattle.std.specs.Prelude.{◌≡◌, ℕ, ◌+◌, ◌*◌, ◌%◌, ◌^◌, ◌<◌, ◌≤◌, ◌↔◌, ℤ, IfSome, IsNone};
ghost use Rattle.arithmetic.specs.Numbers.{gcd};
ghost use Rattle.arithmetic.specs.Agreement.{Agrees, ArePairwiseCoprime};
ghost use Rattle.recover_fraction.specs.Agreement.{KeepsAgreement};
ghost use Rattle.lists.specs.Digits.{product_of};
ghost use Rattle.recover_fraction.specs.CommonResidues.{AreResiduesFor, IsCombination};

use crate::recovery::{Fraction, recover};
use residue::{Moduli, Modulus, Residues};

/// The only number below the product of the moduli that leaves each residue modulo its modulus. With no modulus it
/// is 0.
///
/// The moduli are pairwise coprime, with a product below 2^126. There are as many residues, each below its modulus.
/// A fraction agrees with the residues exactly if it agrees with this number modulo the product.
pub fn combine(moduli: &Moduli, residues: &Residues) -> u128
    requires residues { AreResiduesFor moduli.now residues.now }
    requires coprime { ArePairwiseCoprime moduli.now }
    requires product { product_of moduli.now < 2 ^ 126 }
    ensures value { IsCombination moduli.now residues.now result }
    ensures agreement { KeepsAgreement moduli.now residues.now result }
{
    combine_slice(moduli, residues.as_slice())
}

/// The same number, for residues that stand in a slice, as those of one integral among several.
pub fn combine_slice(moduli: &Moduli, residues: &[u64]) -> u128
    requires residues { AreResiduesFor moduli.now residues.now }
    requires coprime { ArePairwiseCoprime moduli.now }
    requires product { product_of moduli.now < 2 ^ 126 }
    ensures value { IsCombination moduli.now residues.now result }
    ensures agreement { KeepsAgreement moduli.now residues.now result }
{
    garner(moduli, residues).number
}

/// The only fraction in lowest terms that has each residue modulo its modulus, with a top of size at most `a` and a
/// bottom from 1 to `b`. It is `None` exactly if there is none.
///
/// The moduli are pairwise coprime, with a product below 2^126. There are as many residues, each below its modulus.
/// Both bounds are from 1 to 2^62 - 1, and 2 `a` `b` is below the product of the moduli.
pub fn agreeing_fraction(moduli: &Moduli, residues: &[u64], a: u64, b: u64) -> Option<Fraction>
    requires residues { AreResiduesFor moduli.now residues.now }
    requires coprime { ArePairwiseCoprime moduli.now }
    requires product { product_of moduli.now < 2 ^ 126 }
    requires a_positive { 1 ≤ a }
    requires a_limited { a < 2 ^ 62 }
    requires b_positive { 1 ≤ b }
    requires b_limited { b < 2 ^ 62 }
    requires bounds { 2 * a * b < product_of moduli.now }
    ensures agrees { IfSome result (λ f. Agrees moduli.now residues.now a b f.top f.bottom) }
    ensures only { IfSome result (λ f. (p : ℤ) (q : ℕ) → Agrees moduli.now residues.now a b p q
        → (p ≡ f.top) × (q ≡ f.bottom)) }
    ensures none { IsNone result ↔ ((p : ℤ) (q : ℕ) → ¬ Agrees moduli.now residues.now a b p q) }
{
    let all = garner(moduli, residues);
    recover(all.number, all.product, a, b)
}

/// A number below a product of moduli, with their residues.
#[derive(Drop)]
struct Combined {
    number: u128,
    product: u128,
}

/// Garner's method: with each modulus the number grows by the product so far times the digit that brings the residue.
fn garner(moduli: &Moduli, residues: &[u64]) -> Combined
    requires residues { AreResiduesFor moduli.now residues.now }
    requires coprime { ArePairwiseCoprime moduli.now }
    requires product { product_of moduli.now < 2 ^ 126 }
    ensures product { result.product ≡ product_of moduli.now }
    ensures value { IsCombination moduli.now residues.now result.number }
    ensures agreement { KeepsAgreement moduli.now residues.now result.number }
{
    let (mut number, mut product) = (0, 1);
    for place in 0..moduli.len() {
        let modulus = moduli.get(place);
        number += product * digit(number, product, residues[place], modulus) as u128;
        product *= modulus.get() as u128;
    }
    Combined { number, product }
}

/// The digit `(residue - number) / product` modulo the modulus: `number` plus `product` times it leaves `residue`.
fn digit(number: u128, product: u128, residue: u64, modulus: &Modulus) -> u64
    requires residue_below { residue < modulus.now }
    requires coprime { gcd product modulus.now ≡ 1 }
    ensures below { result < modulus.now }
    ensures value { (number + product * result) % modulus.now ≡ residue }
{
    let m = modulus.get() as u128;
    let missing = modulus.sub(residue, (number % m) as u64);
    let inverse = modulus.inverse((product % m) as u64).unwrap();
    modulus.mul(missing, inverse)
}
