//! Sums of contributions over ranges of tree numbers.
//!
//! The trees of a range of numbers are made one after the other, and the residues of their contributions to each
//! integral of a problem are summed modulo each of its moduli. Over all numbers the sums are the residues of
//! Kontsevich's sums over all decorated trees. If the bottom of some contribution is no unit modulo some modulus, the
//! least number of such a tree is returned instead.
//!
//! The sum over a block of consecutive numbers is kept as a fraction, of which only the residues of the top and the
//! bottom are known, and divided at the end of the block. Its bottom is the product of those of the contributions, so
//! it has no residue exactly if one of them has none.
#![tactic(auto)]

mod at_tree;
mod bad;
mod block;
mod range;

pub use at_tree::contribution;
pub use bad::first_bad_modulus;
pub use range::{NONE_BAD, RangeTotal, sum_range};

#[cfg(test)]
mod tests;
