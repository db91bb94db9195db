//! The sum of a problem as a job of many workers.
//!
//! A [`LocusJob`] is a range of numbers of a problem's trees, cut into blocks of 64 numbers. A worker gathers the sums
//! of its blocks in a [`PartSum`], and the sums of all parts together are those of the range. All workers share one
//! table of factors. Each part has a seat of it, which knows the words of all edges of the blocks that its worker
//! worked.
#![tactic(auto)]

mod block;
mod job;
mod part;
mod sums;

pub use job::LocusJob;
pub use part::PartSum;
pub use sums::{add_parts, add_residues};
