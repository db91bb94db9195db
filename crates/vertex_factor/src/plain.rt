//! The factor of a vertex without psi classes.

ghost use Rattle.std.specs.Prelude.{◌≢◌, ◌+◌, ◌<◌, ◌≤◌, length, All, ◌∷◌, []};
ghost use Rattle.arithmetic.specs.Numbers.{Leaves};
ghost use Rattle.residue.specs.Answers.{GivesResidue};
ghost use Rattle.residue.specs.Ratios.{IsRatioOf};
ghost use Rattle.localisation.specs.Weights.{tangent_product, tangent_term};
ghost use Rattle.localisation.specs.VertexFraction.{plain_vertex, stable_vertex};
ghost use Rattle.vertex_factor.specs.Ends.{end, ends_of, IsEndAt, flag_fraction};

use crate::sums::{difference, sums_over};
use residue::{Modulus, NoUnit, Ratio, Setup};

/// The residue of the product `T` of the differences of the weight of the colour `c` to those of all other colours.
/// `c` is at most the rank.
pub fn tangent(setup: &Setup, c: u8, modulus: &Modulus) -> u64
    requires { c < length setup.now }
    ensures { Leaves modulus.now (tangent_product setup.now c) result }
{
    let mut product = modulus.of_u64(1);
    for j in 0..setup.rank() + 1 {
        product = modulus.mul(product, tangent_term(setup, c, j, modulus));
    }
    product
}

/// The residue of the difference of the weights of `c` and `j`, or 1 if they are one colour.
fn tangent_term(setup: &Setup, c: u8, j: u8, modulus: &Modulus) -> u64
    requires c_within { c < length setup.now }
    requires j_within { j < length setup.now }
    ensures { Leaves modulus.now (tangent_term setup.now c j) result }
{
    if j == c {
        modulus.of_u64(1)
    } else {
        difference(setup, c, j, modulus)
    }
}

/// The residue of the degree `a`, from 1 to 10, over the difference of the weights of two different colours `c` and
/// `u`, each at most the rank.
///
/// # Errors
/// `NoUnit` exactly if the difference and the modulus have a common divisor above 1.
pub fn flag(setup: &Setup, c: u8, u: u8, a: u8, modulus: &Modulus) -> Result<u64, NoUnit>
    requires c_within { c < length setup.now }
    requires u_within { u < length setup.now }
    requires distinct { u ≢ c }
    requires a_positive { 1 ≤ a }
    requires a_limited { a ≤ 10 }
    ensures { GivesResidue modulus.now (flag_fraction setup.now c u a) result }
{
    modulus.quotient(modulus.of_u64(a as u64), difference(setup, c, u, modulus))
}

/// The residue of the factor of a vertex of colour `c` with no mark and two edges, of the degrees `a1` and `a2` to
/// vertices of the colours `c1` and `c2`. The colours are at most the rank, `c1` and `c2` are not `c`, and the degrees
/// are from 1 to 10.
///
/// # Errors
/// `NoUnit` exactly if the bottom and the modulus have a common divisor above 1.
pub fn pair(
    setup: &Setup,
    c: u8,
    c1: u8,
    a1: u8,
    c2: u8,
    a2: u8,
    modulus: &Modulus,
) -> Result<u64, NoUnit>
    requires c_within { c < length setup.now }
    requires first { IsEndAt setup.now c (c1, a1) }
    requires second { IsEndAt setup.now c (c2, a2) }
    ensures { GivesResidue modulus.now (plain_vertex setup.now c (end c1 a1 ∷ end c2 a2 ∷ []) 0) result }
{
    pair_ratio(setup, c, c1, a1, c2, a2, modulus).residue(modulus)
}

/// The residue of the factor of a vertex of colour `c` with the ends `ends` and `marks` marks, none with a psi class.
///
/// There are 1 to 10 ends, each the colour of the neighbour, which is not `c`, and the degree of the edge, from 1 to
/// 10. The colours are at most the rank, and there are at most 12 marks.
///
/// # Errors
/// `NoUnit` exactly if the bottom and the modulus have a common divisor above 1.
pub fn vertex(
    setup: &Setup,
    c: u8,
    ends: &[(u8, u8)],
    marks: u8,
    modulus: &Modulus,
) -> Result<u64, NoUnit>
    requires c_within { c < length setup.now }
    requires ends_some { 1 ≤ length ends.now }
    requires ends_limited { length ends.now ≤ 10 }
    requires ends_at { All (IsEndAt setup.now c) ends.now }
    requires marks_limited { marks ≤ 12 }
    ensures { GivesResidue modulus.now (plain_vertex setup.now c (ends_of ends.now) marks) result }
{
    vertex_ratio(setup, c, ends, marks, modulus).residue(modulus)
}

/// The residues of the top and the bottom of the same factor, without a division. A neighbour may have any colour at
/// most the rank, and a degree may be any.
pub fn vertex_ratio(setup: &Setup, c: u8, ends: &[(u8, u8)], marks: u8, modulus: &Modulus) -> Ratio
    requires c_within { c < length setup.now }
    requires ends_some { 1 ≤ length ends.now }
    requires ends_limited { length ends.now ≤ 10 }
    requires colours_within { All (λ e. e.0 < length setup.now) ends.now }
    requires marks_limited { marks ≤ 12 }
    ensures { IsRatioOf modulus.now (plain_vertex setup.now c (ends_of ends.now) marks) result }
{
    if ends.len() + marks as usize >= 3 {
        return stable(setup, c, ends, marks, modulus);
    }
    match ends {
        [first, second, ..] => pair_ratio(setup, c, first.0, first.1, second.0, second.1, modulus),
        [end, ..] if marks == 0 => tip(setup, c, end.0, end.1, modulus),
        _ => Ratio::whole(modulus.of_u64(1), modulus),
    }
}

/// The factor of a vertex with one edge and no mark.
fn tip(setup: &Setup, c: u8, u: u8, a: u8, modulus: &Modulus) -> Ratio
    requires c_within { c < length setup.now }
    requires u_within { u < length setup.now }
    ensures { IsRatioOf modulus.now (plain_vertex setup.now c (end u a ∷ []) 0) result }
{
    Ratio {
        top: difference(setup, c, u, modulus),
        bottom: modulus.of_u64(a as u64),
    }
}

/// The factor of a vertex with two edges and no mark.
fn pair_ratio(setup: &Setup, c: u8, c1: u8, a1: u8, c2: u8, a2: u8, modulus: &Modulus) -> Ratio
    requires c_within { c < length setup.now }
    requires c1_within { c1 < length setup.now }
    requires c2_within { c2 < length setup.now }
    ensures { IsRatioOf modulus.now (plain_vertex setup.now c (end c1 a1 ∷ end c2 a2 ∷ []) 0) result }
{
    let first = modulus.of_u64(a1 as u64);
    let second = modulus.of_u64(a2 as u64);
    let at_first = modulus.mul(tangent(setup, c, modulus), first);
    let crossed = modulus.mul(first, difference(setup, c, c2, modulus));
    let other = modulus.mul(second, difference(setup, c, c1, modulus));
    Ratio {
        top: modulus.mul(at_first, second),
        bottom: modulus.add(crossed, other),
    }
}

/// The factor of a vertex whose edges and marks are at least 3.
fn stable(setup: &Setup, c: u8, ends: &[(u8, u8)], marks: u8, modulus: &Modulus) -> Ratio
    requires c_within { c < length setup.now }
    requires ends_limited { length ends.now ≤ 10 }
    requires colours_within { All (λ e. e.0 < length setup.now) ends.now }
    requires ends_some { 1 ≤ length ends.now }
    requires stable { 3 ≤ length ends.now + marks }
    ensures { IsRatioOf modulus.now (stable_vertex setup.now c (ends_of ends.now) marks) result }
{
    let valence = ends.len() as u64;
    let special = valence + marks as u64;
    let sums = sums_over(setup, c, ends, modulus);
    let tangents = modulus.pow(tangent(setup, c, modulus), valence - 1);
    let at_ends = modulus.mul(tangents, sums.degrees);
    Ratio {
        top: modulus.mul(at_ends, modulus.pow(sums.crossed, special - 3)),
        bottom: modulus.pow(sums.differences, special - 2),
    }
}
