//! The text of a list of trees with the residues of their contributions.
//!
//! [`list_trees`] lists the trees of a range of numbers on several workers: of each one its number, its text, and for each
//! integral and modulus the residue of its contribution, or that there is none. The text is the same for every number of
//! workers.
#![tactic(auto)]

mod listing;
mod text;

pub use listing::{Listing, is_listable, list_trees};

#[cfg(test)]
mod tests;
