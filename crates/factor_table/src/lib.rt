//! Factors of edges, vertices and classes, each computed once and read by all workers.
//!
//! The factors of a sum over trees come from few keys: an edge has two colours and a degree, a flag the same. A
//! [`FactorTable`] has one word for each [`Key`] and modulus. A word is 0 at first, and whoever needs its factor first
//! computes it and writes it, as the factor plus 1, or as 2^64 - 1 if the factor has no residue. From then on the
//! word stays, and every thread reads it by one load.
//!
//! Each worker has a [`FactorSeat`] of the table. The seat takes no bytes: it is what proofs know of the worker, the
//! list of the places of words that it has seen filled.
#![tactic(auto)]

mod copies;
mod key;
mod layout;
mod lookups;
mod opening;
mod parameters;
mod plain;
mod seats;
mod table;
mod within;

pub use key::Key;
pub use layout::{Layout, Sizes};
pub use parameters::{Classes, Parameters};
pub use plain::tip;
pub use table::{FactorSeat, FactorTable};
pub use within::has_parts;

#[cfg(test)]
mod tests;
