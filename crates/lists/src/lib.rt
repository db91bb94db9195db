//! Lists: the plain list type that public types share, the error of a list that cannot grow, and the vocabulary of
//! lists and their indexes that every other crate cites: members, ranges, digits, binomials and padding, in `specs/`,
//! and their laws, in `proofs/`.
#![tactic(auto)]

mod items;
mod memory;
#[cfg(test)]
mod tests;

pub use items::{Bytes, Items};
pub use memory::NoMemory;
