//! The list of the contributions of a problem's trees, tree by tree, as a job of many workers.
//!
//! A [`ListJob`] is a range of numbers of a problem's trees, cut into blocks of 64 numbers. A worker fills the places of
//! its [`ListPart`] that belong to the numbers of its blocks, each with an [`Entry`]: for each integral and modulus the
//! residue of the tree's contribution, or that there is none. After a round each number has its entry in exactly one
//! part. All workers share one table of factors.
#![tactic(auto)]

mod block;
mod entry;
mod finding;
mod job;
mod part;
mod round;

pub use entry::{Entry, NO_RESIDUE};
pub use finding::entry_of;
pub use job::ListJob;
pub use part::ListPart;
pub use round::{empty_parts, list_numbers};

#[cfg(test)]
mod tests;
