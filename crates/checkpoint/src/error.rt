//! Why a text is no checkpoint.

ghost use Rattle.std.specs.Prelude.{◌≡◌};

use problem_toml::ProblemError;
use residue::NoMemory;
use std::alloc::{AllocError, AllocFailed};

/// Why a text is no checkpoint: the first of these, in the order of their variants, whose condition holds.
#[derive(Debug, Drop)]
pub enum CheckpointError {
    /// The allocator refused memory. This is no refusal: nothing is said of the text.
    NoMemory,
    /// The text has more than 1,052,672 bytes.
    TooLong,
    /// The last line is not `sha256 ` with 64 lower case hexadecimal digits, or the first is not `locus-checkpoint `
    /// with a decimal.
    NotCheckpoint,
    /// The digest that the last line keeps is not the one that SHA-256 gives of what stands before that line.
    Damaged { kept: [u8; 32], computed: [u8; 32] },
    /// The version is neither 1 nor 2.
    BadVersion { version: u64 },
    /// The lines between the first and the last are not those of a checkpoint.
    BadBody,
    /// The source is no problem.
    ProblemRefused { why: ProblemError },
    /// The next number is above the number of trees.
    NextTooLarge { next: u64, count: u64 },
    /// There are not as many `residues` lines as integrals.
    LineCount { found: u32, wanted: u32 },
    /// A line has not as many residues as there are moduli; the first such line.
    ResidueCount { found: u32, wanted: u32 },
    /// A residue is not below its modulus; the index of the first such residue, counted from 0 through all lines.
    ResidueRefused { place: u32 },
}

impl CheckpointError {
    ghost use Rattle.checkpoint.specs.Refusals.{refusal_number};

    /// The number of the refusal, from 1 to 10. Want of memory is none and has no number.
    pub fn number(&self) -> Option<u16>
        ensures { result ≡ refusal_number self.now }
    {
        match self {
            CheckpointError::NoMemory => None,
            CheckpointError::TooLong => Some(1),
            CheckpointError::NotCheckpoint => Some(2),
            CheckpointError::Damaged { .. } => Some(3),
            CheckpointError::BadVersion { .. } => Some(4),
            CheckpointError::BadBody => Some(5),
            CheckpointError::ProblemRefused { .. } => Some(6),
            CheckpointError::NextTooLarge { .. } => Some(7),
            CheckpointError::LineCount { .. } => Some(10),
            CheckpointError::ResidueCount { .. } => Some(8),
            CheckpointError::ResidueRefused { .. } => Some(9),
        }
    }
}

impl From<AllocError> for CheckpointError {
    ghost use Rattle.checkpoint.specs.declared.error.CheckpointError.TheVariants.{NoMemory};

    ghost from_gives = { λ _ e. e ≡ NoMemory };

    fn from(_error: AllocError) -> Self {
        CheckpointError::NoMemory
    }
}

impl<T: Drop> From<AllocFailed<T>> for CheckpointError {
    ghost use Rattle.checkpoint.specs.declared.error.CheckpointError.TheVariants.{NoMemory};

    ghost from_gives = { λ _ e. e ≡ NoMemory };

    fn from(_failed: AllocFailed<T>) -> Self {
        CheckpointError::NoMemory
    }
}

impl From<NoMemory> for CheckpointError {
    ghost use Rattle.checkpoint.specs.declared.error.CheckpointError.TheVariants.{NoMemory};

    ghost from_gives = { λ _ e. e ≡ NoMemory };

    fn from(_error: NoMemory) -> Self {
        CheckpointError::NoMemory
    }
}
