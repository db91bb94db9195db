//! The value of a class at a tree.

ghost use Rattle.std.specs.Prelude.{◌<◌, ◌≤◌, length, ℤ};
ghost use Rattle.arithmetic.specs.Numbers.{Leaves, integer_sum, integer_sum_below};
ghost use Rattle.arithmetic.specs.Fractions.{product_of_fractions};
ghost use Rattle.localisation.specs.ClassValue.{class_edge, class_value, incidence_at, incidence_term};
ghost use Rattle.localisation.specs.ClassValue.{at_edges, at_vertices};
ghost use Rattle.classes.specs.Degrees.{HasParameterWithinLimit};
ghost use Rattle.residue.specs.Ratios.{IsRatioOf};
ghost use Rattle.classes.specs.Classes.{IsClassFor};
ghost use Rattle.class_factor.specs.Vertices.{class_at_vertex};

use crate::at_edge::edge_part_ratio;
use crate::at_vertex::vertex_part_ratio;
use residue::{Class, Modulus, Ratio, Setup};
use tree_parts::TreeParts;

/// The residues of the top and the bottom of the value of a class at a tree, without a division.
///
/// The rank of the tree is at most that of the weights, and the parameter and the mark of the class, if it has one,
/// are within their limits: a mark is from 1 to the number of the tree's marks.
pub fn whole_ratio(setup: &Setup, class: &Class, parts: &TreeParts, modulus: &Modulus) -> Ratio
    requires class { IsClassFor parts.now.shape.marks class.now }
    requires rank { parts.now.shape.rank < length setup.now }
    ensures { IsRatioOf modulus.now (class_value setup.now class.now parts.now.tree) result }
{
    match *class {
        Class::Mark { mark } => {
            let colour = parts.colour(parts.vertex_of(mark));
            Ratio::whole(setup.weight_modulo(colour, modulus), modulus)
        }
        Class::Incidence { q } => Ratio::whole(incidence(setup, q, parts, modulus), modulus),
        Class::Psi { .. } => {
            let one = modulus.of_u64(1);
            Ratio::whole(one, modulus)
        }
        Class::Hypersurface { .. } | Class::R1 { .. } | Class::Contact => {
            let edges = edge_parts(setup, class, parts, modulus);
            edges.times(vertex_parts(setup, class, parts, modulus), modulus)
        }
    }
}

/// The product of the parts of a class at all edges.
fn edge_parts(setup: &Setup, class: &Class, parts: &TreeParts, modulus: &Modulus) -> Ratio
    requires parameter { HasParameterWithinLimit class.now }
    requires rank { parts.now.shape.rank < length setup.now }
    ensures { IsRatioOf modulus.now
        (product_of_fractions (at_edges (class_edge setup.now class.now) parts.now.tree)) result }
{
    let mut product = Ratio::whole(modulus.of_u64(1), modulus);
    let edges = parts.edges();
    for edge in edges {
        let part = edge_part_ratio(setup, class, edge.first, edge.second, edge.degree, modulus);
        product = product.times(part, modulus);
    }
    product
}

/// The product of the parts of a class at all vertices.
fn vertex_parts(setup: &Setup, class: &Class, parts: &TreeParts, modulus: &Modulus) -> Ratio
    requires rank { parts.now.shape.rank < length setup.now }
    ensures { IsRatioOf modulus.now
        (product_of_fractions
        (at_vertices (class_at_vertex setup.now class.now parts.now.tree) parts.now.tree)) result }
{
    let mut product = Ratio::whole(modulus.of_u64(1), modulus);
    for vertex in 0..parts.vertices() {
        let colour = parts.colour(vertex);
        let part = vertex_part_ratio(setup, class, colour, parts.valence(vertex), modulus);
        product = product.times(part, modulus);
    }
    product
}

/// The value of an incidence class: the sum over all edges.
fn incidence(setup: &Setup, q: u8, parts: &TreeParts, modulus: &Modulus) -> u64
    requires q_limited { q ≤ 12 }
    requires rank { parts.now.shape.rank < length setup.now }
    ensures { Leaves modulus.now (integer_sum (at_edges (incidence_at setup.now q) parts.now.tree)) result }
{
    let mut sum = modulus.of_u64(0);
    let edges = parts.edges();
    for edge in edges {
        let at_edge = incidence_at(setup, q, edge.first, edge.second, edge.degree, modulus);
        sum = modulus.add(sum, at_edge);
    }
    sum
}

/// What one edge of degree `a` between the colours `i` and `j` gives to an incidence class.
fn incidence_at(setup: &Setup, q: u8, i: u8, j: u8, a: u8, modulus: &Modulus) -> u64
    requires i_within { i < length setup.now }
    requires j_within { j < length setup.now }
    ensures { Leaves modulus.now (incidence_at setup.now q i j a) result }
{
    let at_i = setup.weight_modulo(i, modulus);
    let at_j = setup.weight_modulo(j, modulus);
    let mut sum = modulus.of_u64(0);
    for t in 0..q {
        let term = modulus.mul(
            modulus.pow(at_i, t as u64),
            modulus.pow(at_j, (q - 1 - t) as u64),
        );
        sum = modulus.add(sum, term);
    }
    modulus.mul(modulus.of_u64(a as u64), sum)
}
