//! Montgomery's form of residues, in which a product costs no division
//! (Montgomery, Modular multiplication without trial division, 1985).
//!
//! In this form the residue `x` is kept as `x * 2^64` modulo the modulus.

ghost use Rattle.std.specs.Prelude.{◌≡◌, ℕ, ◌+◌, ◌-◌, ◌*◌, ◌/◌, ◌%◌, ◌^◌, ◌<◌, ◌≤◌, ℤ};
ghost use Rattle.arithmetic.specs.Numbers.{product_below, progression, Leaves};
ghost use Rattle.residue.specs.Montgomery.{over_word};

/// An odd modulus below 2^62, with the constants that its reduction needs.
#[derive(Clone, Copy, Debug)]
pub(crate) struct Montgomery {
    /// The modulus.
    modulus: u64,
    /// The number whose product with the modulus leaves -1 modulo 2^64.
    negated_inverse: u64,
    /// 2^128 modulo the modulus.
    square: u64,
    ghost odd: { modulus % 2 ≡ 1 },
    ghost at_least_3: { 3 ≤ modulus },
    ghost limited: { modulus < 2 ^ 62 },
    ghost inverse: { (modulus * negated_inverse + 1) % 2 ^ 64 ≡ 0 },
    ghost square_is: { square ≡ 2 ^ 128 % modulus },
}

impl Montgomery {
    /// The odd modulus `m`, from 3 to 2^62 - 1.
    pub(crate) fn new(m: u64) -> Self
        requires odd { m % 2 ≡ 1 }
        requires at_least_3 { 3 ≤ m }
        requires limited { m < 2 ^ 62 }
        ensures { result.modulus ≡ m }
    {
        let word = ((1 << 64) % m as u128) as u64;
        let square = (word as u128 * word as u128 % m as u128) as u64;
        Montgomery {
            modulus: m,
            negated_inverse: negated_inverse(m),
            square,
        }
    }

    /// The modulus.
    #[inline]
    pub(crate) fn modulus(&self) -> u64
        ensures { result ≡ self.now.modulus }
    {
        self.modulus
    }

    /// The sum of two numbers below the modulus: of residues, or of their forms.
    #[inline]
    pub(crate) fn add(&self, x: u64, y: u64) -> u64
        requires x_below { x < self.now.modulus }
        requires y_below { y < self.now.modulus }
        ensures value { result ≡ (x + y) % self.now.modulus }
        ensures below { result < self.now.modulus }
    {
        let sum = x + y;
        if sum < self.modulus {
            sum
        } else {
            sum - self.modulus
        }
    }

    /// The product of the residues `x` and `y`, by two reductions.
    #[inline]
    pub(crate) fn mul(&self, x: u64, y: u64) -> u64
        requires x_below { x < self.now.modulus }
        requires y_below { y < self.now.modulus }
        ensures { result ≡ (x * y) % self.now.modulus }
    {
        self.times(x, self.enter(y))
    }

    /// The power of the residue `x` by `exponent`; the power 0 is 1. The squares stay in the form.
    ///
    /// Most edges have degree 1, so that most powers that are asked for are those of 1.
    pub(crate) fn pow(&self, x: u64, exponent: u64) -> u64
        requires { x < self.now.modulus }
        ensures { result ≡ (x ^ exponent) % self.now.modulus }
    {
        if x == 1 {
            return 1;
        }
        let mut power = 1;
        let mut square = self.enter(x);
        let mut left = exponent;
        while left > 1 {
            if left % 2 == 1 {
                power = self.times(power, square);
            }
            square = self.squared(square);
            left /= 2;
        }
        if left == 1 {
            self.times(power, square)
        } else {
            power
        }
    }

    /// The product of `count` terms of an arithmetic progression: of `first`, `first + step`, `first + 2 step` and so
    /// on. The terms stay in the form.
    pub(crate) fn progression_product(&self, first: u64, step: u64, count: u64) -> u64
        requires first_below { first < self.now.modulus }
        requires step_below { step < self.now.modulus }
        ensures { (z d : ℤ) → Leaves self.now.modulus z first → Leaves self.now.modulus d step
            → Leaves self.now.modulus (product_below count (progression z d)) result }
    {
        if count == 0 {
            return 1;
        }
        let rise = self.enter(step);
        let mut product = first;
        let mut term = self.enter(first);
        for _place in 1..count {
            term = self.add(term, rise);
            product = self.times(product, term);
        }
        product
    }

    /// The form of the residue `x`.
    #[inline]
    fn enter(&self, x: u64) -> u64
        requires { x < self.now.modulus }
        ensures below { result < self.now.modulus }
        ensures value { over_word self.now.modulus self.now.negated_inverse result ≡ x }
    {
        self.reduce(x as u128 * self.square as u128)
    }

    /// The product of the residue `x` and the residue that has the form `f`, by one reduction.
    #[inline]
    fn times(&self, x: u64, f: u64) -> u64
        requires x_below { x < self.now.modulus }
        requires f_below { f < self.now.modulus }
        ensures below { result < self.now.modulus }
        ensures value { result ≡ (x * over_word self.now.modulus self.now.negated_inverse f) % self.now.modulus }
    {
        self.reduce(x as u128 * f as u128)
    }

    /// The form of the square of the residue that has the form `f`.
    #[inline]
    fn squared(&self, f: u64) -> u64
        requires { f < self.now.modulus }
        ensures below { result < self.now.modulus }
        ensures value { over_word self.now.modulus self.now.negated_inverse result
            ≡ (over_word self.now.modulus self.now.negated_inverse f
            * over_word self.now.modulus self.now.negated_inverse f) % self.now.modulus }
    {
        self.reduce(f as u128 * f as u128)
    }

    /// `t` over 2^64 modulo the modulus: the least multiple of 2^64 among `t` and its sums with multiples of the
    /// modulus, over 2^64.
    #[inline]
    fn reduce(&self, t: u128) -> u64
        requires { t < self.now.modulus * 2 ^ 64 }
        ensures below { result < self.now.modulus }
        ensures value { result ≡ over_word self.now.modulus self.now.negated_inverse t }
    {
        let low = (t & 0xffff_ffff_ffff_ffff) as u64;
        let factor = low.wrapping_mul(self.negated_inverse);
        let sum = t + factor as u128 * self.modulus as u128;
        let shifted = (sum >> 64) as u64;
        if shifted < self.modulus {
            shifted
        } else {
            shifted - self.modulus
        }
    }
}

/// The number whose product with the odd `m` leaves -1 modulo 2^64, by Newton's iteration: each step squares the power
/// of 2 that divides the product and 1.
fn negated_inverse(m: u64) -> u64
    requires { m % 2 ≡ 1 }
    ensures { (m * result + 1) % 2 ^ 64 ≡ 0 }
{
    let mut inverse = 1u64;
    for _step in 0..6u32 {
        let error = m.wrapping_mul(inverse).wrapping_add(1);
        inverse = inverse.wrapping_mul(error.wrapping_add(1));
    }
    inverse
}
