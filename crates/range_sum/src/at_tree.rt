//! The contribution of one tree of a problem, as a residue and as a ratio.

ghost use Rattle.std.specs.Prelude.{◌≡◌, ◌<◌, [], IsTrue, get_or, length, slice_index};
ghost use Rattle.decorated_tree.specs.Trees.{tree_view, is_tree_of};
ghost use Rattle.localisation.specs.Contribution.{contribution};
ghost use Rattle.residue.specs.Answers.{GivesResidue};
ghost use Rattle.residue.specs.Ratios.{IsRatioOf};

use contribution::contribution_ratio;
use decorated_tree::Tree;
use problem::Problem;
use residue::{NoUnit, Ratio};
use tree_parts::TreeParts;

/// The residue of the contribution of a tree of the problem's shape to the integral with the index `integral`, modulo
/// the modulus with the index `modulus`, both counted from 0. It takes no memory.
///
/// The contribution is the sum over the terms of the integral of the fractions of all vertices, times the term's value;
/// times the fractions of all edges, over `n!` if the tree has `n` vertices (Kontsevich 1995).
///
/// # Errors
/// `NoUnit` exactly if the bottom of the contribution and the modulus have a common divisor above 1.
pub fn contribution(
    problem: &Problem,
    integral: u8,
    tree: &Tree,
    modulus: u8,
) -> Result<u64, NoUnit>
    requires tree { IsTrue (is_tree_of problem.now.shape tree.now) }
    requires integral_within { integral < length problem.now.integrals }
    requires modulus_within { modulus < length problem.now.moduli }
    ensures { GivesResidue (slice_index problem.now.moduli modulus)
        (contribution problem.now.setup (get_or problem.now.integrals integral []) (tree_view tree.now)) result }
{
    tree_residue(problem, integral, &parts_of(problem, tree), modulus)
}

/// The parts of a tree of the problem's shape.
pub(crate) fn parts_of(problem: &Problem, tree: &Tree) -> TreeParts
    requires { IsTrue (is_tree_of problem.now.shape tree.now) }
    ensures shape { result.shape ≡ problem.now.shape }
    ensures tree { result.tree ≡ tree_view tree.now }
{
    TreeParts::of(tree, problem.shape.r())
}

/// The residue of the contribution of a tree of the problem's shape, which is given by its parts.
///
/// # Errors
/// `NoUnit` exactly if the bottom of the contribution and the modulus have a common divisor above 1.
pub(crate) fn tree_residue(
    problem: &Problem,
    integral: u8,
    parts: &TreeParts,
    modulus: u8,
) -> Result<u64, NoUnit>
    requires shape { parts.now.shape ≡ problem.now.shape }
    requires integral_within { integral < length problem.now.integrals }
    requires modulus_within { modulus < length problem.now.moduli }
    ensures { GivesResidue (slice_index problem.now.moduli modulus)
        (contribution problem.now.setup (get_or problem.now.integrals integral []) parts.now.tree) result }
{
    let ratio = tree_ratio(problem, integral, parts, modulus);
    ratio.residue(problem.moduli.get(modulus as usize))
}

/// The residues of the top and the bottom of the same contribution, without a division.
pub(crate) fn tree_ratio(problem: &Problem, integral: u8, parts: &TreeParts, modulus: u8) -> Ratio
    requires shape { parts.now.shape ≡ problem.now.shape }
    requires integral_within { integral < length problem.now.integrals }
    requires modulus_within { modulus < length problem.now.moduli }
    ensures { IsRatioOf (slice_index problem.now.moduli modulus)
        (contribution problem.now.setup (get_or problem.now.integrals integral []) parts.now.tree) result }
{
    let terms = problem.integrals.get(integral as usize);
    let modulus = problem.moduli.get(modulus as usize);
    contribution_ratio(&problem.setup, terms.as_slice(), parts, modulus)
}
