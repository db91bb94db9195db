//! The contribution of a decorated tree to an integral, by one division.
//!
//! It is the sum over the terms of the integral of the fractions of all vertices, under the term's exponents of psi
//! classes, times the term's value; times the fractions of all edges; with `n!` as a further factor of the bottom if
//! the tree has `n` vertices (Kontsevich, Enumeration of rational curves via torus actions, 1995).
#![tactic(auto)]

mod at_tree;
mod exponents;
mod limits;
mod sum;

pub use at_tree::tree_contribution;
pub use exponents::{Exponents, exponents_of};
pub use limits::{are_terms_for, is_term_for};
pub use sum::{contribution, contribution_ratio};

#[cfg(test)]
mod tests;
