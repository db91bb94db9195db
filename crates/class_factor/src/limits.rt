//! Tests of whether classes are within their limits.

ghost use Rattle.std.specs.Prelude.{◌↔◌, IsTrue, All};
ghost use Rattle.residue.specs.Classes.{IsClassFor, IsPowerFor};

use residue::{Class, Power};

/// Whether the parameter and the mark of a class, if it has one, are within their limits: `b` and `k` from 1 to 64,
/// `q` from 2 to 12, and a mark from 1 to `marks`.
pub fn is_class_for(class: &Class, marks: u8) -> bool
    ensures { IsTrue result ↔ IsClassFor marks class.now }
{
    match *class {
        Class::Mark { mark } | Class::Psi { mark } => 1 <= mark && mark <= marks,
        Class::Hypersurface { b } => 1 <= b && b <= 64,
        Class::Incidence { q } => 2 <= q && q <= 12,
        Class::R1 { k } => 1 <= k && k <= 64,
        Class::Contact => true,
    }
}

/// Whether each of the classes is within its limits.
pub fn are_powers_for(powers: &[Power], marks: u8) -> bool
    ensures { IsTrue result ↔ All (IsPowerFor marks) powers.now }
{
    powers.iter().all(|power| is_class_for(&power.class, marks))
}
