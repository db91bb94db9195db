//! The contribution of a tree that is kept as a `Tree`.

ghost use Rattle.std.specs.Prelude.{◌-◌, length, All};
ghost use Rattle.decorated_tree.specs.Trees.{tree_view};
ghost use Rattle.localisation.specs.Contribution.{contribution};
ghost use Rattle.residue.specs.Answers.{GivesResidue};
ghost use Rattle.tree_parts.specs.Trees.{IsTreeOfRank};
ghost use Rattle.contribution.specs.Terms.{IsTermFor};

use crate::sum::contribution;
use decorated_tree::Tree;
use residue::{Modulus, NoUnit, Setup, Terms};
use tree_parts::TreeParts;

/// The residue of the contribution of a decorated tree to the integral of `terms`.
///
/// The colours of the tree are at most the rank. Each class of each term has its parameter and its mark within their
/// limits, and the exponent of each mark in each term is at most 151.
///
/// # Errors
/// `NoUnit` exactly if the bottom of the contribution and the modulus have a common divisor above 1.
pub fn tree_contribution(
    setup: &Setup,
    terms: &Terms,
    tree: &Tree,
    modulus: &Modulus,
) -> Result<u64, NoUnit>
    requires tree { IsTreeOfRank (length setup.now - 1) tree.now }
    requires terms { All (IsTermFor tree.now.m) terms.now }
    ensures { GivesResidue modulus.now (contribution setup.now terms.now (tree_view tree.now)) result }
{
    let parts = TreeParts::of(tree, setup.rank());
    contribution(setup, terms, &parts, modulus)
}
