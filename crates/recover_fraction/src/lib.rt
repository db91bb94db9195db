//! Fractions from their residues: the number with given residues modulo several moduli, by Garner's method (The
//! residue number system, 1959), and the fraction within bounds that has a given residue, by the extended algorithm
//! of Euclid (Wang, A p-adic algorithm for univariate partial fractions, 1981; von zur Gathen and Gerhard, Modern
//! Computer Algebra, section 5.10).
//!
//! No call takes memory.
#![tactic(auto)]

mod combination;
mod recovery;
#[cfg(test)]
mod tests;

pub use combination::{agreeing_fraction, combine, combine_slice};
pub use recovery::{Fraction, recover};
