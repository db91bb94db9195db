//! Fractions modulo a modulus, with their bottoms kept, so that one division at the end serves a whole formula.

use crate::errors::NoUnit;
use crate::modulus::Modulus;

/// The residues of the top and the bottom of a fraction, which is not reduced.
#[derive(Clone, Copy, Debug, PartialEq, Eq, Drop)]
pub struct Ratio {
    pub top: u64,
    pub bottom: u64,
}

impl Ratio {
    ghost use Rattle.std.specs.Prelude.{◌<◌, pos, ℤ};
    ghost use Rattle.arithmetic.specs.Numbers.{Leaves};
    ghost use Rattle.arithmetic.specs.Fractions.{Fraction, fraction, times, plus, power_of_fraction};
    ghost use Rattle.residue.specs.Answers.{GivesResidue};
    ghost use Rattle.residue.specs.Ratios.{IsRatioOf};

    /// The residue of a whole number, over 1.
    pub fn whole(top: u64, modulus: &Modulus) -> Self
        ensures { (z : ℤ) → Leaves modulus.now z top → IsRatioOf modulus.now (fraction z (pos 1)) result }
    {
        Ratio {
            top,
            bottom: modulus.of_u64(1),
        }
    }

    /// The product of two fractions.
    pub fn times(self, other: Self, modulus: &Modulus) -> Self
        requires top_below { self.top < modulus.now }
        requires bottom_below { self.bottom < modulus.now }
        requires other_top_below { other.top < modulus.now }
        requires other_bottom_below { other.bottom < modulus.now }
        ensures { (f g : Fraction) → IsRatioOf modulus.now f self → IsRatioOf modulus.now g other
            → IsRatioOf modulus.now (times f g) result }
    {
        Ratio {
            top: modulus.mul(self.top, other.top),
            bottom: modulus.mul(self.bottom, other.bottom),
        }
    }

    /// The sum of two fractions, over the product of their bottoms.
    pub fn plus(self, other: Self, modulus: &Modulus) -> Self
        requires top_below { self.top < modulus.now }
        requires bottom_below { self.bottom < modulus.now }
        requires other_top_below { other.top < modulus.now }
        requires other_bottom_below { other.bottom < modulus.now }
        ensures { (f g : Fraction) → IsRatioOf modulus.now f self → IsRatioOf modulus.now g other
            → IsRatioOf modulus.now (plus f g) result }
    {
        let first = modulus.mul(self.top, other.bottom);
        let second = modulus.mul(other.top, self.bottom);
        Ratio {
            top: modulus.add(first, second),
            bottom: modulus.mul(self.bottom, other.bottom),
        }
    }

    /// The power of a fraction; the power 0 is 1 over 1.
    pub fn power(self, exponent: u64, modulus: &Modulus) -> Self
        requires top_below { self.top < modulus.now }
        requires bottom_below { self.bottom < modulus.now }
        ensures { (f : Fraction) → IsRatioOf modulus.now f self
            → IsRatioOf modulus.now (power_of_fraction f exponent) result }
    {
        Ratio {
            top: modulus.pow(self.top, exponent),
            bottom: modulus.pow(self.bottom, exponent),
        }
    }

    /// The residue of the fraction.
    ///
    /// # Errors
    /// `NoUnit` exactly if its bottom and the modulus have a common divisor above 1, also if its top is 0.
    pub fn residue(self, modulus: &Modulus) -> Result<u64, NoUnit>
        requires top_below { self.top < modulus.now }
        requires bottom_below { self.bottom < modulus.now }
        ensures { (f : Fraction) → IsRatioOf modulus.now f self → GivesResidue modulus.now f result }
    {
        modulus.quotient(self.top, self.bottom)
    }
}
