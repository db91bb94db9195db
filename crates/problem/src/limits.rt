//! Tests of whether classes and terms are within their limits.

ghost use Rattle.std.specs.Prelude.{◌≡◌, ◌≤◌, ◌↔◌, IsTrue, All, length, unsigned_abs};
ghost use Rattle.classes.specs.Classes.{IsClassFor};
ghost use Rattle.problem.specs.Rules.{IsPower, IsTerm};

use residue::{Class, Power, Term};

const MOST_COEFFICIENT: u64 = 1_000_000_000;

const MOST_CLASSES: usize = 16;

/// Whether the parameter of a class is within its limits, and its mark from 1 to `marks`.
fn is_class(class: &Class, marks: u8) -> bool
    ensures { IsTrue result ↔ IsClassFor marks class.now }
{
    match *class {
        Class::Mark { mark } | Class::Psi { mark } => 1 <= mark && mark <= marks,
        Class::Hypersurface { b } => 1 <= b && b <= 64,
        Class::Incidence { q } => 2 <= q && q <= 12,
        Class::R1 { k } => 1 <= k && k <= 64,
        Class::Contact => true,
    }
}

/// Whether a class is within its limits, to a power from 1 to 64.
fn is_power(power: &Power, marks: u8) -> bool
    ensures { IsTrue result ↔ IsPower marks power.now }
{
    is_class(&power.class, marks) && 1 <= power.power && power.power <= 64
}

fn are_powers(powers: &[Power], marks: u8) -> bool
    ensures { IsTrue result ↔ All (IsPower marks) powers.now }
{
    powers.iter().all(|power| is_power(power, marks))
}

/// Whether a term has a coefficient from -1,000,000,000 to 1,000,000,000 and at most 16 classes, each within its limits.
pub fn is_term(term: &Term, marks: u8) -> bool
    ensures { IsTrue result ↔ IsTerm marks term.now }
{
    term.coefficient.unsigned_abs() <= MOST_COEFFICIENT
        && term.classes.len() <= MOST_CLASSES
        && are_powers(term.classes.as_slice(), marks)
}
