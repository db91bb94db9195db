//! Terms without psi classes.

ghost use Rattle.std.specs.Prelude.{◌≡◌};
ghost use Rattle.std.specs.Bool.{OnTrue};
ghost use Rattle.regrouping.specs.TermParts.{IsPsiFree};
ghost use Rattle.table_sum.specs.Classes.{is_other, are_others};

use residue::{Class, Power, Term};

/// Whether no class of a term is a psi class. Then the exponent of each mark is 0.
pub(crate) fn is_psi_free(term: &Term) -> bool
    ensures { OnTrue result (IsPsiFree term.now) }
{
    are_others(term.classes.as_slice())
}

/// Whether none of the classes is a psi class.
fn are_others(powers: &[Power]) -> bool
    ensures { result ≡ are_others powers.now }
{
    powers.iter().all(|power| is_other(&power.class))
}

/// Whether a class is no psi class.
fn is_other(class: &Class) -> bool
    ensures { result ≡ is_other class.now }
{
    match *class {
        Class::Psi { .. } => false,
        Class::Mark { .. }
        | Class::Hypersurface { .. }
        | Class::Incidence { .. }
        | Class::R1 { .. }
        | Class::Contact => true,
    }
}
