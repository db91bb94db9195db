//! Sums over a range of numbers.

ghost use Rattle.std.specs.Prelude.{◌≡◌, ◌≢◌, ℕ, ◌-◌, ◌^◌, ◌<◌, ◌≤◌, slice_index};
ghost use Rattle.localisation.specs.Agreement.{modulus_at, IsLeastBad, NoneBad};
ghost use Rattle.problem.specs.Problems.{view as problem_view};
ghost use Rattle.problem.specs.Sums.{count_of, is_bad_of, places_of, ArePartialSums, AreKontsevichSums, IsEmptyFrom};

use crate::block::add_block;
use problem::Problem;

/// Stands for the least bad number of a range that has none: 2^64 - 1, which no tree has as its number.
pub const NONE_BAD: u64 = u64::MAX;

/// A range is summed in blocks of at most so many numbers. There is one division for each block, integral and modulus:
/// 64 trees make it small beside their contributions, and a bad tree is noticed at most 64 trees late.
const BLOCK: u64 = 64;

/// The sums of the contributions of a range of trees.
#[derive(Debug, Drop)]
pub struct RangeTotal {
    /// The residues of the partial sums, integral by integral and within one integral modulus by modulus. The
    /// entries past them are 0.
    pub sums: [u64; 64],
    /// The least number whose tree is bad for some modulus, or [`NONE_BAD`].
    pub least: u64,
}

/// Sums the contributions of the trees of the numbers from `first` to `end - 1`; `end` is at most the number of
/// decorated trees of the problem. Over all numbers, from 0 on, the sums are Kontsevich's. It takes no memory.
///
/// If a tree of the range is bad for some modulus, the least number of such a tree is returned, and the sums mean
/// nothing.
pub fn sum_range(problem: &Problem, first: u64, end: u64) -> RangeTotal
    requires order { first ≤ end }
    requires within { end ≤ count_of (problem_view problem.now) }
    ensures least { result.least ≢ NONE_BAD → IsLeastBad (is_bad_of (problem_view problem.now)) first end result.least }
    ensures none { result.least ≡ NONE_BAD → NoneBad (is_bad_of (problem_view problem.now)) first end }
    ensures sums { result.least ≡ NONE_BAD → ArePartialSums (problem_view problem.now) first end result.sums }
    ensures all { result.least ≡ NONE_BAD → first ≡ 0 → end ≡ count_of (problem_view problem.now)
        → AreKontsevichSums (problem_view problem.now) result.sums }
    ensures below { result.least ≡ NONE_BAD → (place : ℕ) → place < places_of (problem_view problem.now)
        → slice_index result.sums place < modulus_at problem.now.moduli place }
    ensures rest { result.least ≡ NONE_BAD → IsEmptyFrom (places_of (problem_view problem.now)) result.sums }
    ensures none_bad { NONE_BAD ≡ 2 ^ 64 - 1 }
{
    let mut sums = [0; 64];
    let mut start = first;
    while start < end {
        let stop = start + BLOCK.min(end - start);
        if let Some(least) = add_block(problem, start, stop, &mut sums) {
            return RangeTotal { sums, least };
        }
        start = stop;
    }
    RangeTotal {
        sums,
        least: NONE_BAD,
    }
}
