//! Why shards cannot be merged.

ghost use Rattle.std.specs.Prelude.{◌≡◌};

use residue::NoMemory;
use std::alloc::{AllocError, AllocFailed};

/// Why shards cannot be merged: the first of these, in the order of their variants, whose condition holds. Places are
/// counted from 0.
#[derive(Debug, Drop)]
pub enum MergeError {
    /// The allocator refused memory. This is no refusal: nothing is said of the shards.
    NoMemory,
    /// A shard is of another source than the first; the first such place.
    DifferentProblems { place: u32 },
    /// Two shards have a number in common; the least pair of places, by the first and then by the second.
    Overlap { first: u32, second: u32 },
    /// No shard has a number between the least first number and the greatest end; the least such number.
    Gap { number: u64 },
}

impl From<AllocError> for MergeError {
    ghost use Rattle.shard_merge.specs.declared.merge_error.MergeError.TheVariants.{NoMemory};

    ghost from_gives = { λ _ e. e ≡ NoMemory };

    fn from(_error: AllocError) -> Self {
        MergeError::NoMemory
    }
}

impl<T: Drop> From<AllocFailed<T>> for MergeError {
    ghost use Rattle.shard_merge.specs.declared.merge_error.MergeError.TheVariants.{NoMemory};

    ghost from_gives = { λ _ e. e ≡ NoMemory };

    fn from(_failed: AllocFailed<T>) -> Self {
        MergeError::NoMemory
    }
}

impl From<NoMemory> for MergeError {
    ghost use Rattle.shard_merge.specs.declared.merge_error.MergeError.TheVariants.{NoMemory};

    ghost from_gives = { λ _ e. e ≡ NoMemory };

    fn from(_error: NoMemory) -> Self {
        MergeError::NoMemory
    }
}
