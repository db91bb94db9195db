//! The values of classes and terms at a tree, as residues.

ghost use Rattle.std.specs.Prelude.{◌-◌, length, All};
ghost use Rattle.decorated_tree.specs.Trees.{tree_view};
ghost use Rattle.localisation.specs.ClassValue.{class_value, term_value};
ghost use Rattle.residue.specs.Answers.{GivesResidue};
ghost use Rattle.tree_parts.specs.Trees.{IsTreeOfRank};
ghost use Rattle.residue.specs.Classes.{IsClassFor, IsPowerFor};

use crate::term::term_ratio;
use crate::whole::whole_ratio;
use decorated_tree::Tree;
use residue::{Class, Modulus, NoUnit, Setup, Term};
use tree_parts::TreeParts;

/// The residue of the value of a class at a decorated tree whose colours are at most the rank. The parameter of the
/// class, if it has one, is within its limit, and its mark, if it has one, is from 1 to the number of the tree's
/// marks. A psi class has the value 1.
///
/// # Errors
/// `NoUnit` exactly if the bottom of the value and the modulus have a common divisor above 1.
pub fn whole_part(
    setup: &Setup,
    class: &Class,
    tree: &Tree,
    modulus: &Modulus,
) -> Result<u64, NoUnit>
    requires tree { IsTreeOfRank (length setup.now - 1) tree.now }
    requires class { IsClassFor tree.now.m class.now }
    ensures { GivesResidue modulus.now (class_value setup.now class.now (tree_view tree.now)) result }
{
    let parts = TreeParts::of(tree, setup.rank());
    whole_ratio(setup, class, &parts, modulus).residue(modulus)
}

/// The residue of the value of a term at a decorated tree whose colours are at most the rank: the coefficient times the
/// product of the values of its classes, each to its power. Each class has its parameter and its mark within their
/// limits.
///
/// # Errors
/// `NoUnit` exactly if the bottom of some class of the term and the modulus have a common divisor above 1, whatever
/// the coefficient is.
pub fn term_value(setup: &Setup, term: &Term, tree: &Tree, modulus: &Modulus) -> Result<u64, NoUnit>
    requires tree { IsTreeOfRank (length setup.now - 1) tree.now }
    requires classes { All (IsPowerFor tree.now.m) term.now.classes }
    ensures { GivesResidue modulus.now (term_value setup.now term.now (tree_view tree.now)) result }
{
    let parts = TreeParts::of(tree, setup.rank());
    term_ratio(setup, term, &parts, modulus).residue(modulus)
}
