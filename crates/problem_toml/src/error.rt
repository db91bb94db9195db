//! Why a text is refused.

ghost use Rattle.std.specs.Prelude.{◌≡◌};

use crate::name::Name;
use crate::place::Place;
use residue::{Bytes, ModulusError, NoMemory};
use std::alloc::{AllocError, AllocFailed};

/// Why a text is no problem: the first rule that it breaks.
#[derive(Debug, Drop)]
pub enum ProblemError {
    /// The allocator refused memory. This is no refusal: nothing is said of the text.
    NoMemory,
    /// The text has more than 1,048,576 bytes.
    TooLong,
    /// The bytes are no TOML document.
    NotToml,
    /// A key that has to be there is not.
    MissingKey {
        place: Place,
        name: Name,
    },
    /// The least key, in the order of bytes, that is no key of the format there.
    UnknownKey {
        place: Place,
        key: Bytes,
    },
    /// The value at a key is not of its type, or an element of its array is not.
    WrongType {
        place: Place,
        name: Name,
    },
    /// The version is neither 1 nor 2.
    BadVersion {
        version: i64,
    },
    /// The number at a key is out of its limits, or the number of the elements of its array is.
    OutOfLimits {
        place: Place,
        name: Name,
    },
    /// The number of weights is not the rank and 1. A number that does not fit shows as the greatest that does.
    WeightCount {
        found: u32,
        wanted: u32,
    },
    /// The number at an index of the list is no modulus; one below 0 is too small.
    ModulusRefused {
        index: u32,
        why: ModulusError,
    },
    /// Two moduli have a common divisor above 1: the least pair of indices of such moduli, by the first index and then
    /// by the second.
    NotCoprime {
        first: u32,
        second: u32,
    },
    /// The product of the moduli is at least 2^126.
    ProductTooLarge,
    /// Twice the product of the bounds is at least the product of the moduli.
    BoundsTooWide,
    /// The version has no class of this kind.
    UnknownKind {
        term: u32,
        class: u32,
    },
    /// The degree of a term is not the dimension.
    WrongDegree {
        term: u32,
        degree: u64,
        dimension: u64,
    },
    /// There are more than 2^40 decorated trees.
    TooManyTrees,
}

impl ProblemError {
    ghost use Rattle.problem_toml.specs.Refusals.{refusal_number};

    /// The number of the refusal, from 1 to 15. Want of memory is none and has no number.
    pub fn number(&self) -> Option<u16>
        ensures { result ≡ refusal_number self.now }
    {
        match self {
            ProblemError::NoMemory => None,
            ProblemError::TooLong => Some(1),
            ProblemError::NotToml => Some(2),
            ProblemError::MissingKey { .. } => Some(3),
            ProblemError::UnknownKey { .. } => Some(4),
            ProblemError::WrongType { .. } => Some(5),
            ProblemError::BadVersion { .. } => Some(6),
            ProblemError::OutOfLimits { .. } => Some(7),
            ProblemError::WeightCount { .. } => Some(8),
            ProblemError::ModulusRefused { .. } => Some(9),
            ProblemError::NotCoprime { .. } => Some(10),
            ProblemError::ProductTooLarge => Some(11),
            ProblemError::BoundsTooWide => Some(12),
            ProblemError::UnknownKind { .. } => Some(13),
            ProblemError::WrongDegree { .. } => Some(14),
            ProblemError::TooManyTrees => Some(15),
        }
    }
}

impl From<AllocError> for ProblemError {
    ghost use Rattle.problem_toml.specs.declared.error.ProblemError.TheVariants.{NoMemory};

    ghost from_gives = { λ _ e. e ≡ NoMemory };

    fn from(_error: AllocError) -> Self {
        ProblemError::NoMemory
    }
}

impl<T: Drop> From<AllocFailed<T>> for ProblemError {
    ghost use Rattle.problem_toml.specs.declared.error.ProblemError.TheVariants.{NoMemory};

    ghost from_gives = { λ _ e. e ≡ NoMemory };

    fn from(_failed: AllocFailed<T>) -> Self {
        ProblemError::NoMemory
    }
}

impl From<NoMemory> for ProblemError {
    ghost use Rattle.problem_toml.specs.declared.error.ProblemError.TheVariants.{NoMemory};

    ghost from_gives = { λ _ e. e ≡ NoMemory };

    fn from(_error: NoMemory) -> Self {
        ProblemError::NoMemory
    }
}
