//! The contribution of a tree, as a ratio and as a residue.

ghost use Rattle.std.specs.Prelude.{◌<◌, ◌≤◌, ℕ, length, All};
ghost use Rattle.arithmetic.specs.Fractions.{product_of_fractions};
ghost use Rattle.localisation.specs.EdgeFraction.{edge_fraction};
ghost use Rattle.localisation.specs.ClassValue.{at_edges, at_vertices, exponent_of};
ghost use Rattle.localisation.specs.Contribution.{contribution, vertex_factors, edge_factors};
ghost use Rattle.residue.specs.Answers.{GivesResidue};
ghost use Rattle.residue.specs.Ratios.{IsRatioOf};
ghost use Rattle.contribution.specs.Terms.{sum_of_terms, vertex_at, IsTermFor};

use crate::exponents::exponents_of;
use class_factor::term_ratio;
use edge_factor::edge_ratio;
use residue::{Modulus, NoUnit, Ratio, Setup, Term, Terms};
use tree_parts::TreeParts;
use vertex_factor::vertex_psi_ratio;

/// The residue of the contribution of a tree to the integral of `terms`.
///
/// The rank of the tree is at most that of the weights. Each class of each term has its parameter and its mark within
/// their limits, and the exponent of each mark in each term is at most 151.
///
/// # Errors
/// `NoUnit` exactly if the bottom of the contribution and the modulus have a common divisor above 1.
pub fn contribution(
    setup: &Setup,
    terms: &Terms,
    parts: &TreeParts,
    modulus: &Modulus,
) -> Result<u64, NoUnit>
    requires rank { parts.now.shape.rank < length setup.now }
    requires terms { All (IsTermFor parts.now.shape.marks) terms.now }
    ensures { GivesResidue modulus.now (contribution setup.now terms.now parts.now.tree) result }
{
    contribution_ratio(setup, terms.as_slice(), parts, modulus).residue(modulus)
}

/// The residues of the top and the bottom of the same contribution, without a division.
pub fn contribution_ratio(
    setup: &Setup,
    terms: &[Term],
    parts: &TreeParts,
    modulus: &Modulus,
) -> Ratio
    requires rank { parts.now.shape.rank < length setup.now }
    requires terms { All (IsTermFor parts.now.shape.marks) terms.now }
    ensures { IsRatioOf modulus.now (contribution setup.now terms.now parts.now.tree) result }
{
    let numberings = Ratio {
        top: modulus.of_u64(1),
        bottom: modulus.factorial(parts.vertices()),
    };
    let at_edges = edges_ratio(setup, parts, modulus);
    let at_terms = terms_ratio(setup, terms, parts, modulus);
    numberings.times(at_edges.times(at_terms, modulus), modulus)
}

/// The product of the fractions of all edges.
fn edges_ratio(setup: &Setup, parts: &TreeParts, modulus: &Modulus) -> Ratio
    requires rank { parts.now.shape.rank < length setup.now }
    ensures { IsRatioOf modulus.now (edge_factors setup.now parts.now.tree) result }
{
    let mut product = Ratio::whole(modulus.of_u64(1), modulus);
    let edges = parts.edges();
    for edge in edges {
        let factor = edge_ratio(setup, edge.first, edge.second, edge.degree, modulus);
        product = product.times(factor, modulus);
    }
    product
}

/// The sum over the terms of the vertex fractions under the term's exponents, times the term's value.
fn terms_ratio(setup: &Setup, terms: &[Term], parts: &TreeParts, modulus: &Modulus) -> Ratio
    requires rank { parts.now.shape.rank < length setup.now }
    requires terms { All (IsTermFor parts.now.shape.marks) terms.now }
    ensures { IsRatioOf modulus.now (sum_of_terms setup.now parts.now.tree terms.now) result }
{
    let mut sum = Ratio::whole(modulus.of_u64(0), modulus);
    for term in terms {
        let vertices = vertices_ratio(setup, term, parts, modulus);
        let factor = vertices.times(term_ratio(setup, term, parts, modulus), modulus);
        sum = sum.plus(factor, modulus);
    }
    sum
}

/// The product of the fractions of all vertices, under the exponents of a term.
fn vertices_ratio(setup: &Setup, term: &Term, parts: &TreeParts, modulus: &Modulus) -> Ratio
    requires rank { parts.now.shape.rank < length setup.now }
    requires exponents { (j : ℕ) → exponent_of term.now j ≤ 151 }
    ensures { IsRatioOf modulus.now (vertex_factors setup.now term.now parts.now.tree) result }
{
    let mut product = Ratio::whole(modulus.of_u64(1), modulus);
    for vertex in 0..parts.vertices() {
        let factor = vertex_ratio(setup, term, parts, vertex, modulus);
        product = product.times(factor, modulus);
    }
    product
}

/// The fraction of one vertex, under the exponents of a term.
fn vertex_ratio(
    setup: &Setup,
    term: &Term,
    parts: &TreeParts,
    vertex: u8,
    modulus: &Modulus,
) -> Ratio
    requires rank { parts.now.shape.rank < length setup.now }
    requires exponents { (j : ℕ) → exponent_of term.now j ≤ 151 }
    requires vertex_below { vertex < parts.now.tree.vertices }
    ensures { IsRatioOf modulus.now (vertex_at setup.now term.now parts.now.tree vertex) result }
{
    let colour = parts.colour(vertex);
    let ends = parts.ends_at(vertex);
    let exponents = exponents_of(term, parts.marks_at(vertex));
    vertex_psi_ratio(setup, colour, ends, exponents.as_slice(), modulus)
}
