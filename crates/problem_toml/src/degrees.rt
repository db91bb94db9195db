//! The degrees of terms.

ghost use Rattle.std.specs.Prelude.{◌≡◌, ◌≤◌, ◌+◌, All, length, sum_by};
ghost use Rattle.problem.specs.Rules.{IsTerm};
ghost use Rattle.problem_toml.specs.Header.{IsHeader, header_shape};
ghost use Rattle.problem_toml.specs.Reading.{degrees_fit, all_degrees_fit};
ghost use Rattle.problem_toml.specs.Steps.{GivesSurely};

use crate::error::ProblemError;
use crate::header::Header;
use crate::table::check;
use problem::degree;
use residue::{Term, Terms};

fn check_degrees(header: &Header, first: u32, terms: &[Term]) -> Result<(), ProblemError>
    requires header { IsHeader header.now }
    requires terms { All (IsTerm header.now.marks) terms.now }
    requires most { first + length terms.now ≤ 32 }
    ensures { GivesSurely (λ u. u) result (degrees_fit (header_shape header.now) first terms.now) }
{
    let dimension = header.dimension();
    for (place, term) in terms.iter().enumerate() {
        let degree = degree(header.degree, term.classes.as_slice());
        check(
            degree == dimension,
            ProblemError::WrongDegree {
                term: first + place as u32,
                degree,
                dimension,
            },
        )?;
    }
    Ok(())
}

/// Each term has to have the dimension as its degree.
pub fn check_all_degrees(header: &Header, integrals: &[Terms]) -> Result<(), ProblemError>
    requires header { IsHeader header.now }
    requires terms { All (All (IsTerm header.now.marks)) integrals.now }
    requires most { sum_by length integrals.now ≤ 32 }
    ensures { GivesSurely (λ u. u) result (all_degrees_fit (header_shape header.now) 0 integrals.now) }
{
    let mut first = 0;
    for terms in integrals {
        check_degrees(header, first, terms.as_slice())?;
        first += terms.len() as u32;
    }
    Ok(())
}
