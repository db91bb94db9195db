//! The versions of the format.

ghost use Rattle.std.specs.Prelude.{◌≡◌};
ghost use Rattle.toml.specs.View.{table_view};
ghost use Rattle.problem_toml.specs.Steps.{GivesSurely};
ghost use Rattle.problem_toml.specs.Versions.{version_of, list_key, most_listed, needed, known};

use crate::error::ProblemError;
use crate::name::Name;
use crate::place::Place;
use crate::table::integer;
use toml::Table;

/// A version of the format.
#[derive(Clone, Copy, PartialEq, Eq, Drop)]
pub enum Version {
    /// The terms of one integral stand at the top.
    One,
    /// Integrals stand at the top, each with its terms.
    Two,
}

/// The version that a table says it is of.
#[tactic(auto, unfolding(crate::specs::Versions::version_of))]
pub fn read_version(table: &Table) -> Result<Version, ProblemError>
    ensures { GivesSurely (λ version. version) result (version_of (table_view table.now)) }
{
    let version = integer(table, Place::Top, Name::Version)?;
    match version {
        1 => Ok(Version::One),
        2 => Ok(Version::Two),
        _ => Err(ProblemError::BadVersion { version }),
    }
}

impl Version {
    /// The key of what is summed.
    pub fn list_key(self) -> Name
        ensures { result ≡ list_key self }
    {
        match self {
            Version::One => Name::Term,
            Version::Two => Name::Integral,
        }
    }

    /// The most terms of a text of version 1, and the most integrals of one of version 2.
    pub fn most_listed(self) -> usize
        ensures { result ≡ most_listed self }
    {
        match self {
            Version::One => 32,
            Version::Two => 8,
        }
    }

    /// The keys at the top that have to be there, besides `version`.
    pub fn needed(self) -> [Name; 7]
        ensures { result ≡ needed self }
    {
        [
            Name::Rank,
            Name::Degree,
            Name::Weights,
            Name::Moduli,
            Name::NumeratorBound,
            Name::DenominatorBound,
            self.list_key(),
        ]
    }

    /// The keys that may be there.
    pub fn known(self) -> [Name; 9]
        ensures { result ≡ known self }
    {
        [
            Name::Version,
            Name::Marks,
            Name::Rank,
            Name::Degree,
            Name::Weights,
            Name::Moduli,
            Name::NumeratorBound,
            Name::DenominatorBound,
            self.list_key(),
        ]
    }
}
