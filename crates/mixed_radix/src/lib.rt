//! Numbers by digits of mixed bases.
//!
//! A list of bases gives each number below their product one digit a base. The first base belongs to the most
//! significant digit: with the bases 3, 4 and 2 the number 17 = 2·8 + 0·2 + 1 has the digits 2, 0 and 1.
#![tactic(auto)]

ghost use Rattle.std.specs.Prelude.{◌≡◌, ℕ, ◌+◌, ◌^◌, ◌<◌, ◌≤◌, ◌↔◌, ◌==◌, [], length, replicate, position, IsTrue, IsNone, IfSome, IfOk, IsErrOf, Some};
ghost use Rattle.std.specs.Bool.{OnTrue, OnFalse};
ghost use Rattle.lists.specs.Digits.{product_of, joined, split, AreDigits};

use std::marker::Model;

/// The most bases that a [`Radix`] has.
pub const MOST_BASES: usize = 40;

/// The most numbers that a [`Radix`] splits, which is 2^40.
pub const MOST_NUMBERS: u64 = 1_099_511_627_776;

/// Why a list of bases is refused.
#[derive(Clone, Copy, Debug, PartialEq, Eq)]
pub enum RadixError {
    /// There are more than [`MOST_BASES`] bases.
    TooMany,

    /// The base at this index, counted from 0, is 0, and none before it is.
    ZeroBase { place: u32 },

    /// The product of the bases is above [`MOST_NUMBERS`].
    TooLarge,
}

/// A list of at most 40 positive bases with a product of at most 2^40, the most significant first.
#[derive(Clone, Debug, PartialEq, Eq, Drop)]
pub struct Radix {
    bases: [u64; MOST_BASES],
    count: usize,
    size: u64,
}

impl Model for Radix {
    ghost use Rattle.std.specs.Prelude.{◌≡◌, ℕ, ◌^◌, ◌<◌, ◌≤◌, List, take};
    ghost use Rattle.lists.specs.Digits.{product_of};
    ghost use Rattle.lists.specs.Padding.{IsPadded};

    ghost Value = { List ℕ };

    ghost use Rattle.mixed_radix.specs.Fields.{fields_of, fields_of-take};

    ghost view = { λ r. take r.count r.bases };

    ghost invariant = { λ r. IsPadded 0 40 r.count r.bases × (r.size ≡ product_of (take r.count r.bases))
        × (0 < r.size) × (r.size ≤ 2 ^ 40) };

    ghost inverse = { fields_of };

    ghost inverse_ok = { λ r h. fields_of-take r h.0 h.1 };
}

impl Radix {
    /// The numbers with these bases, of which the first belongs to the most significant digit.
    ///
    /// The refusals are tested in the order of [`RadixError`]'s variants.
    pub fn new(bases: &[u64]) -> Result<Self, RadixError>
        ensures ok { IfOk result (λ radix. radix ≡ bases.now) }
        ensures accepted { IfOk result (λ _. (length bases.now ≤ MOST_BASES)
            × (0 < product_of bases.now) × (product_of bases.now ≤ MOST_NUMBERS)) }

        ensures too_many { IsErrOf result RadixError.TooMany ↔ (MOST_BASES < length bases.now) }
        ensures zero_base { (place : ℕ) → IsErrOf result (RadixError.ZeroBase place)
            ↔ ((length bases.now ≤ MOST_BASES) × (position (λ base. base == 0) bases.now ≡ Some place)) }
        ensures too_large { IsErrOf result RadixError.TooLarge
            ↔ ((length bases.now ≤ MOST_BASES) × (MOST_NUMBERS < product_of bases.now)) }
    {
        if bases.len() > MOST_BASES {
            return Err(RadixError::TooMany);
        }
        if let Some(place) = first_zero(bases) {
            return Err(RadixError::ZeroBase {
                place: place as u32,
            });
        }
        let Some(size) = product(bases) else {
            return Err(RadixError::TooLarge);
        };
        let mut kept = [0; MOST_BASES];
        kept[..bases.len()].copy_from_slice(bases);
        Ok(Radix {
            bases: kept,
            count: bases.len(),
            size,
        })
    }

    /// How many numbers there are: the product of the bases, 1 for no bases.
    pub fn size(&self) -> u64
        ensures value { result ≡ product_of self.now }
        ensures positive { 0 < result }
        ensures limited { result ≤ MOST_NUMBERS }
    {
        self.size
    }

    /// The number of bases.
    pub fn len(&self) -> usize
        ensures value { result ≡ length self.now }
        ensures limited { result ≤ MOST_BASES }
    {
        self.count
    }

    /// Whether there are no bases, and so the number 0 alone.
    pub fn is_empty(&self) -> bool
        ensures { IsTrue result ↔ (self.now ≡ []) }
    {
        self.count == 0
    }

    /// The bases, whose product is the size.
    fn bases(&self) -> &[u64]
        ensures value { result.now ≡ self.now }
        ensures positive { 0 < product_of result.now }
        ensures limited { product_of result.now ≤ 2 ^ 40 }
    {
        &self.bases[..self.count]
    }

    /// Writes the digits of `k`, which is below the size, the most significant first.
    ///
    /// `digits` has one digit for each base. Each digit is below its base, and the number is the sum of each digit times the
    /// product of the bases after it.
    pub fn split(&self, k: u64, digits: &mut [u64])
        requires below { k < product_of self.now }
        requires places { length digits.old ≡ length self.now }
        ensures value { digits.new ≡ split self.now k }
        ensures within { AreDigits self.now digits.new }
        ensures number { joined self.now digits.new ≡ k }
    {
        let bases = self.bases();
        let mut rest = k;
        for place in (0..bases.len()).rev() {
            let base = bases[place];
            digits[place] = rest % base;
            rest /= base;
        }
    }

    /// The number with these digits, of which each is below its base.
    pub fn join(&self, digits: &[u64]) -> u64
        requires { AreDigits self.now digits.now }
        ensures value { result ≡ joined self.now digits.now }
        ensures below { result < product_of self.now }
        ensures back { split self.now result ≡ digits.now }
    {
        let bases = self.bases();
        let mut number = 0;
        for (base, digit) in bases.iter().zip(digits) {
            number = number * *base + *digit;
        }
        number
    }

    /// Goes on from the digits of a number to those of the next one, and says whether there is one.
    ///
    /// After the greatest number, which is the size less 1, all digits are 0. On average this writes fewer than two
    /// digits if each base is 2 or more.
    pub fn next(&self, digits: &mut [u64]) -> bool
        requires { AreDigits self.now digits.old }
        ensures more { IsTrue result ↔ (joined self.now digits.old + 1 < product_of self.now) }
        ensures within { AreDigits self.now digits.new }
        ensures number { OnTrue result (joined self.now digits.new ≡ joined self.now digits.old + 1) }
        ensures value { OnTrue result (digits.new ≡ split self.now (joined self.now digits.old + 1)) }
        ensures zeros { OnFalse result (digits.new ≡ replicate (length self.now) 0) }
    {
        let bases = self.bases();
        for place in (0..bases.len()).rev() {
            if digits[place] + 1 < bases[place] {
                digits[place] += 1;
                return true;
            }
            digits[place] = 0;
        }
        false
    }
}

/// The first index that holds 0.
fn first_zero(bases: &[u64]) -> Option<usize>
    ensures { result ≡ position (λ base. base == 0) bases.now }
{
    bases.iter().position(|base| *base == 0)
}

/// The product of the bases, if it is at most 2^40.
fn product(bases: &[u64]) -> Option<u64>
    requires { 0 < product_of bases.now }
    ensures none { IsNone result ↔ (MOST_NUMBERS < product_of bases.now) }
    ensures some { IfSome result (λ size. size ≡ product_of bases.now) }
    ensures limited { IfSome result (λ size. size ≤ MOST_NUMBERS) }
{
    let mut size = 1u64;
    for base in bases {
        let next_size = size as u128 * *base as u128;
        if next_size > MOST_NUMBERS as u128 {
            return None;
        }
        size = next_size as u64;
    }
    Some(size)
}

#[cfg(test)]
mod tests {
    use super::*;
    use std::test::Fail;

    #[test]
    fn seventeen_in_the_bases_three_four_two(rt: HostRuntime) -> Result<(), Fail> {
        let radix = Radix::new(&[3, 4, 2]).ok().ok_or("refused")?;
        let mut digits = [9; 3];
        radix.split(17, &mut digits);
        assert_eq!(rt; radix.len(), 3);
        assert!(rt; !radix.is_empty());
        assert_eq!(rt; digits, [2, 0, 1]);
        assert_eq!(rt; radix.join(&digits), 17);
        assert!(rt; radix.next(&mut digits));
        assert_eq!(rt; digits, [2, 1, 0]);
        Ok(())
    }
}
