//! Moduli and arithmetic modulo them.

ghost use Rattle.std.specs.Prelude.{◌≡◌, ◌≢◌, ℕ, ◌+◌, ◌-◌, ◌*◌, ◌/◌, ◌%◌, ◌^◌, ◌<◌, ◌≤◌, ◌↔◌, IfOk, IfSome, IsErr, IsNone, IsTrue, ℤ, pos};
ghost use Rattle.arithmetic.specs.Numbers.{gcd, factorial, product_below, progression, Leaves};
ghost use Rattle.residue.specs.Limits.{IsModulus};

use crate::errors::NoUnit;
use crate::montgomery::Montgomery;
use std::marker::Model;

/// Why a number is no modulus.
#[derive(Clone, Copy, Debug, PartialEq, Eq, Drop)]
pub enum ModulusError {
    /// The number is even.
    Even,
    /// The number is 1.
    TooSmall,
    /// The number is odd and at least 2^62.
    TooLarge,
}

/// A modulus: an odd number, at least 3 and below 2^62. It need not be a prime.
///
/// Contracts see the number. All residues that its calls take and give are numbers below it; inside, products are
/// by Montgomery's form, with constants that `new` computes.
#[derive(Clone, Debug, Drop)]
pub struct Modulus {
    form: Montgomery,
}

impl Model for Modulus {
    ghost Value = { ℕ };

    ghost view = { λ m. m.form.modulus };
}

impl Modulus {
    /// The modulus `m`.
    ///
    /// # Errors
    /// `Even` if `m` is even, `TooSmall` if it is 1, and `TooLarge` if it is odd and at least 2^62.
    pub fn new(m: u64) -> Result<Self, ModulusError>
        ensures made { IfOk result (λ modulus. modulus ≡ m) }
        ensures within { IfOk result (λ _. IsModulus m) }
        ensures even { (result ≡ Err ModulusError.Even) ↔ (m % 2 ≡ 0) }
        ensures too_small { (result ≡ Err ModulusError.TooSmall) ↔ (m ≡ 1) }
        ensures too_large { (result ≡ Err ModulusError.TooLarge) ↔ ((m % 2 ≡ 1) × (2 ^ 62 ≤ m)) }
    {
        if m % 2 == 0 {
            Err(ModulusError::Even)
        } else if m == 1 {
            Err(ModulusError::TooSmall)
        } else if m >= 1 << 62 {
            Err(ModulusError::TooLarge)
        } else {
            Ok(Modulus {
                form: Montgomery::new(m),
            })
        }
    }

    /// The number that it is.
    #[inline]
    pub fn get(&self) -> u64
        ensures value { result ≡ self.now }
        ensures odd { result % 2 ≡ 1 }
        ensures at_least_3 { 3 ≤ result }
        ensures limited { result < 2 ^ 62 }
    {
        self.form.modulus()
    }

    /// The sum of the residues `x` and `y`.
    #[inline]
    pub fn add(&self, x: u64, y: u64) -> u64
        requires x_below { x < self.now }
        requires y_below { y < self.now }
        ensures value { result ≡ (x + y) % self.now }
        ensures below { result < self.now }
    {
        let _ = &self.form;
        self.form.add(x, y)
    }

    /// The difference of the residues `x` and `y`.
    #[inline]
    pub fn sub(&self, x: u64, y: u64) -> u64
        requires x_below { x < self.now }
        requires y_below { y < self.now }
        ensures value { result ≡ (x + (self.now - y)) % self.now }
        ensures below { result < self.now }
    {
        let m = self.get();
        if y <= x { x - y } else { m - (y - x) }
    }

    /// The product of the residues `x` and `y`.
    #[inline]
    pub fn mul(&self, x: u64, y: u64) -> u64
        requires x_below { x < self.now }
        requires y_below { y < self.now }
        ensures value { result ≡ (x * y) % self.now }
        ensures below { result < self.now }
    {
        let _ = &self.form;
        self.form.mul(x, y)
    }

    /// The power of the residue `x` by `exponent`; the power 0 is 1, also of 0.
    pub fn pow(&self, x: u64, exponent: u64) -> u64
        requires { x < self.now }
        ensures value { result ≡ (x ^ exponent) % self.now }
        ensures below { result < self.now }
    {
        let _ = &self.form;
        self.form.pow(x, exponent)
    }

    /// The residue of `x`, a number with no sign.
    #[inline]
    #[tactic(auto, unfolding(arithmetic::specs::Numbers::reduce))]
    pub fn of_u64(&self, x: u64) -> u64
        ensures { Leaves self.now (pos x) result }
    {
        self.remainder(x)
    }

    /// The residue of `x`.
    #[tactic(auto, unfolding(arithmetic::specs::Numbers::reduce))]
    pub fn of_i64(&self, x: i64) -> u64
        ensures { Leaves self.now x result }
    {
        if x >= 0 {
            self.remainder(x as u64)
        } else {
            self.get() - 1 - self.remainder((-(x + 1)) as u64)
        }
    }

    /// The remainder of `x`. Most numbers that are asked for are below the modulus, and cost no division.
    #[inline]
    fn remainder(&self, x: u64) -> u64
        ensures value { result ≡ x % self.now }
        ensures below { result < self.now }
    {
        let m = self.get();
        if x < m { x } else { x % m }
    }

    /// The residue of `n!`.
    pub fn factorial(&self, n: u8) -> u64
        ensures { Leaves self.now (pos (factorial n)) result }
    {
        let mut product = self.of_u64(1);
        for k in 0..n {
            product = self.mul(product, self.of_u64(k as u64 + 1));
        }
        product
    }

    /// The product of `count` terms of an arithmetic progression: of `first`, `first + step`, `first + 2 step` and so
    /// on. It is 1 if there is no term.
    pub fn progression_product(&self, first: u64, step: u64, count: u64) -> u64
        requires first_below { first < self.now }
        requires step_below { step < self.now }
        ensures { (z d : ℤ) → Leaves self.now z first → Leaves self.now d step
            → Leaves self.now (product_below count (progression z d)) result }
    {
        let _ = &self.form;
        self.form.progression_product(first, step, count)
    }

    /// The residue of the fraction `top` over `bottom`: the one number below the modulus whose product with `bottom`
    /// leaves `top`.
    ///
    /// # Errors
    /// `NoUnit` if `bottom` and the modulus have a common divisor above 1, also if `top` is 0.
    pub fn quotient(&self, top: u64, bottom: u64) -> Result<u64, NoUnit>
        requires top_below { top < self.now }
        requires bottom_below { bottom < self.now }
        ensures refused { IsErr result ↔ (gcd bottom self.now ≢ 1) }
        ensures unit { IfOk result (λ _. gcd bottom self.now ≡ 1) }
        ensures value { IfOk result (λ x. (x < self.now) × ((x * bottom) % self.now ≡ top)) }
    {
        match self.inverse(bottom) {
            Some(inverse) => Ok(self.mul(top, inverse)),
            None => Err(NoUnit),
        }
    }

    /// The inverse of the residue `x`, by the extended algorithm of Euclid. It is `None` exactly if `x` and the
    /// modulus have a common divisor above 1.
    pub fn inverse(&self, x: u64) -> Option<u64>
        requires { x < self.now }
        ensures none { IsNone result ↔ (gcd x self.now ≢ 1) }
        ensures unit { IfSome result (λ _. gcd x self.now ≡ 1) }
        ensures inverse { IfSome result (λ y. (y < self.now) × ((x * y) % self.now ≡ 1)) }
    {
        let m = self.get();
        let (mut larger, mut smaller) = (m, x);
        let (mut of_larger, mut of_smaller) = (0, 1);
        while smaller > 0 {
            let quotient = self.remainder(larger / smaller);
            let next = self.sub(of_larger, self.mul(quotient, of_smaller));
            (larger, smaller) = (smaller, larger % smaller);
            (of_larger, of_smaller) = (of_smaller, next);
        }
        if larger == 1 { Some(of_larger) } else { None }
    }
}

/// Whether only 1 divides both `a` and `b`, by the algorithm of Euclid.
#[tactic(auto, using(arithmetic::proofs::Divisors::euclid))]
pub fn coprime(a: u64, b: u64) -> bool
    ensures { IsTrue result ↔ (gcd a b ≡ 1) }
{
    let (mut larger, mut smaller) = (a, b);
    while smaller > 0 {
        (larger, smaller) = (smaller, larger % smaller);
    }
    larger == 1
}
