//! Shards: the sums of a problem over ranges of its trees, run apart and merged.
//!
//! [`split`] gives the range of each shard. A [`Shard`] keeps in its type that it is one: its problem is the reading of
//! its source, its range is one of numbers of trees, and its residues are below their moduli. [`write`] gives the text
//! of a shard, and [`read`] the shard of a text. [`merge`] makes one of several.
#![tactic(auto)]

mod body;
mod merge_error;
mod merging;
mod ranges;
mod reading;
mod shard;
mod shard_error;
mod tiling;
mod writing;

pub use merge_error::MergeError;
pub use merging::{Merged, merge};
pub use ranges::split;
pub use reading::read;
pub use shard::Shard;
pub use shard_error::ShardError;
pub use writing::write;
