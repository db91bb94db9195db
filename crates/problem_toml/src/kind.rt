//! The kinds of classes.

ghost use Rattle.std.specs.Prelude.{◌≡◌, IfOk};
ghost use Rattle.residue.specs.Classes.{IsClassFor};
ghost use Rattle.problem_toml.specs.Kinds.{word_of, kinds_of, kind_of, parameter_key, class_of};
ghost use Rattle.problem_toml.specs.Steps.{GivesSurely};

use crate::error::ProblemError;
use crate::name::Name;
use crate::place::Place;
use crate::table::limited;
use crate::version::Version;
use residue::Class;

/// A kind of classes.
#[derive(Clone, Copy, PartialEq, Eq, Drop)]
pub enum Kind {
    Mark,
    Hypersurface,
    Incidence,
    R1,
    Contact,
    Psi,
}

/// The kind of a version that a text writes.
pub fn kind_of(version: Version, text: &str) -> Option<Kind>
    ensures { result ≡ kind_of version text.now }
{
    if text == "mark" {
        Some(Kind::Mark)
    } else if text == "hypersurface" {
        Some(Kind::Hypersurface)
    } else if text == "incidence" {
        Some(Kind::Incidence)
    } else if text == "r1" {
        Some(Kind::R1)
    } else if text == "contact" {
        Some(Kind::Contact)
    } else if text == "psi" && version == Version::Two {
        Some(Kind::Psi)
    } else {
        None
    }
}

impl Kind {
    /// The key of the parameter, if the kind has one.
    pub fn parameter_key(self) -> Option<Name>
        ensures { result ≡ parameter_key self }
    {
        match self {
            Kind::Mark | Kind::Psi => Some(Name::Mark),
            Kind::Hypersurface => Some(Name::B),
            Kind::Incidence => Some(Name::Q),
            Kind::R1 => Some(Name::K),
            Kind::Contact => None,
        }
    }

    /// The class of the kind whose parameter is a number, which has to be within its limits.
    pub fn class(self, place: Place, marks: u8, number: i64) -> Result<Class, ProblemError>
        ensures read { GivesSurely (λ class. class) result (class_of place marks self number) }
        ensures limits { IfOk result (IsClassFor marks) }
    {
        Ok(match self {
            Kind::Mark => Class::Mark {
                mark: limited(place, Name::Mark, 1, marks, number)?,
            },
            Kind::Hypersurface => Class::Hypersurface {
                b: limited(place, Name::B, 1, 64, number)?,
            },
            Kind::Incidence => Class::Incidence {
                q: limited(place, Name::Q, 2, 12, number)?,
            },
            Kind::R1 => Class::R1 {
                k: limited(place, Name::K, 1, 64, number)?,
            },
            Kind::Contact => Class::Contact,
            Kind::Psi => Class::Psi {
                mark: limited(place, Name::Mark, 1, marks, number)?,
            },
        })
    }
}
