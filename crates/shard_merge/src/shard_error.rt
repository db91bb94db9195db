//! Why a text is no shard.

ghost use Rattle.std.specs.Prelude.{◌≡◌};

use checkpoint::CheckpointError;
use problem_toml::ProblemError;
use residue::NoMemory;
use std::alloc::{AllocError, AllocFailed};

/// Why a text is no shard: the first of these, in the order of their variants, whose condition holds.
#[derive(Debug, Drop)]
pub enum ShardError {
    /// The allocator refused memory. This is no refusal: nothing is said of the text.
    NoMemory,
    /// The text has more than 1,052,672 bytes.
    TooLong,
    /// The last line is not `sha256 ` with 64 lower case hexadecimal digits, or the first is not `locus-shard ` with a
    /// decimal.
    NotShard,
    /// The digest that the last line keeps is not the one that SHA-256 gives of what stands before that line.
    Damaged { kept: [u8; 32], computed: [u8; 32] },
    /// The version is not 1.
    BadVersion { version: u64 },
    /// The lines between the first and the last are not those of a shard.
    BadBody,
    /// The source is no problem.
    ProblemRefused { why: ProblemError },
    /// The range has no number, or its end is above the number of trees.
    RangeRefused { first: u64, end: u64, count: u64 },
    /// There are not as many `residues` lines as integrals.
    LineCount { found: u32, wanted: u32 },
    /// A line has not as many residues as there are moduli; the first such line.
    ResidueCount { found: u32, wanted: u32 },
    /// A residue is not below its modulus; the index of the first such residue, counted from 0 through all lines.
    ResidueRefused { place: u32 },
}

impl ShardError {
    ghost use Rattle.shard_merge.specs.Refusals.{refusal_number};

    /// The number of the refusal, from 1 to 10. Want of memory is none and has no number.
    pub fn number(&self) -> Option<u16>
        ensures { result ≡ refusal_number self.now }
    {
        match self {
            ShardError::NoMemory => None,
            ShardError::TooLong => Some(1),
            ShardError::NotShard => Some(2),
            ShardError::Damaged { .. } => Some(3),
            ShardError::BadVersion { .. } => Some(4),
            ShardError::BadBody => Some(5),
            ShardError::ProblemRefused { .. } => Some(6),
            ShardError::RangeRefused { .. } => Some(7),
            ShardError::LineCount { .. } => Some(10),
            ShardError::ResidueCount { .. } => Some(8),
            ShardError::ResidueRefused { .. } => Some(9),
        }
    }
}

/// A fault of a piece that the texts of states and of shards share. A state is begun at 0, so a next number that is too
/// large is the end of a range that is.
impl From<CheckpointError> for ShardError {
    ghost use Rattle.shard_merge.specs.Steps.{shard_error};

    ghost from_gives = { λ error e. e ≡ shard_error error };

    fn from(error: CheckpointError) -> Self {
        match error {
            CheckpointError::NoMemory => ShardError::NoMemory,
            CheckpointError::TooLong => ShardError::TooLong,
            CheckpointError::NotCheckpoint => ShardError::NotShard,
            CheckpointError::Damaged { kept, computed } => ShardError::Damaged { kept, computed },
            CheckpointError::BadVersion { version } => ShardError::BadVersion { version },
            CheckpointError::BadBody => ShardError::BadBody,
            CheckpointError::ProblemRefused { why } => ShardError::ProblemRefused { why },
            CheckpointError::NextTooLarge { next, count } => {
                ShardError::RangeRefused {
                    first: 0,
                    end: next,
                    count,
                }
            }
            CheckpointError::LineCount { found, wanted } => ShardError::LineCount { found, wanted },
            CheckpointError::ResidueCount { found, wanted } => {
                ShardError::ResidueCount { found, wanted }
            }
            CheckpointError::ResidueRefused { place } => ShardError::ResidueRefused { place },
        }
    }
}

impl From<AllocError> for ShardError {
    ghost use Rattle.shard_merge.specs.declared.shard_error.ShardError.TheVariants.{NoMemory};

    ghost from_gives = { λ _ e. e ≡ NoMemory };

    fn from(_error: AllocError) -> Self {
        ShardError::NoMemory
    }
}

impl<T: Drop> From<AllocFailed<T>> for ShardError {
    ghost use Rattle.shard_merge.specs.declared.shard_error.ShardError.TheVariants.{NoMemory};

    ghost from_gives = { λ _ e. e ≡ NoMemory };

    fn from(_failed: AllocFailed<T>) -> Self {
        ShardError::NoMemory
    }
}

impl From<NoMemory> for ShardError {
    ghost use Rattle.shard_merge.specs.declared.shard_error.ShardError.TheVariants.{NoMemory};

    ghost from_gives = { λ _ e. e ≡ NoMemory };

    fn from(_error: NoMemory) -> Self {
        ShardError::NoMemory
    }
}
