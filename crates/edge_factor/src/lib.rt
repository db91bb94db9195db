//! The factors of edges: for an edge of degree `a` between vertices of the colours `i` and `j`, with the weights
//! `L_0` to `L_r`, the fraction with the top `(-1)^a a^(2a) a^((r-1)(a+1))` and the bottom
//! `a (a!)^2 (L_i - L_j)^(2a)` times the product over all other colours `k` and over `t` from 0 to `a` of
//! `t L_i + (a-t) L_j - a L_k`.
//!
//! After Kontsevich (Enumeration of rational curves via torus actions, 1995) and Graber and Pandharipande
//! (Localization of virtual classes, 1999); the factor `1/a` for the automorphisms of the edge is inside.
#![tactic(auto)]

ghost use Rattle.std.specs.Prelude.{◌≡◌, ◌≢◌, ◌+◌, ◌*◌, ◌<◌, ◌≤◌, length, negsuc};
ghost use Rattle.arithmetic.specs.Numbers.{Leaves, power};
ghost use Rattle.residue.specs.Answers.{GivesResidue};
ghost use Rattle.residue.specs.Ratios.{IsRatioOf};
ghost use Rattle.localisation.specs.EdgeFraction.{edge_fraction, edge_top, edge_bottom, colour_product, colour_factor, other_colours_product};

use residue::{Modulus, NoUnit, Ratio, Setup};

/// The residue of the fraction of an edge of degree `a`, from 1 to 10, between vertices of two different colours `i`
/// and `j`, each at most the rank.
///
/// # Errors
/// `NoUnit` exactly if the bottom of the fraction and the modulus have a common divisor above 1.
pub fn edge(setup: &Setup, i: u8, j: u8, a: u8, modulus: &Modulus) -> Result<u64, NoUnit>
    requires i_within { i < length setup.now }
    requires j_within { j < length setup.now }
    requires distinct { i ≢ j }
    requires a_positive { 1 ≤ a }
    requires a_limited { a ≤ 10 }
    ensures { GivesResidue modulus.now (edge_fraction setup.now i j a) result }
{
    edge_ratio(setup, i, j, a, modulus).residue(modulus)
}

/// The residues of the top and the bottom of the same fraction, without a division.
pub fn edge_ratio(setup: &Setup, i: u8, j: u8, a: u8, modulus: &Modulus) -> Ratio
    requires i_within { i < length setup.now }
    requires j_within { j < length setup.now }
    requires a_limited { a ≤ 10 }
    ensures { IsRatioOf modulus.now (edge_fraction setup.now i j a) result }
{
    Ratio {
        top: top(setup, a, modulus),
        bottom: bottom(setup, i, j, a, modulus),
    }
}

/// The residue of the top.
fn top(setup: &Setup, a: u8, modulus: &Modulus) -> u64
    requires { a ≤ 10 }
    ensures { Leaves modulus.now (edge_top setup.now a) result }
{
    let degree = a as u64;
    let rank = setup.rank() as u64;
    let of_degree = modulus.of_u64(degree);
    let signed = modulus.mul(sign(degree, modulus), modulus.pow(of_degree, 2 * degree));
    modulus.mul(signed, modulus.pow(of_degree, (rank - 1) * (degree + 1)))
}

/// The residue of `(-1)^a`.
#[tactic(auto, using(crate::proofs::SignPowers::even_sign, crate::proofs::SignPowers::odd_sign))]
fn sign(a: u64, modulus: &Modulus) -> u64
    ensures { Leaves modulus.now (power (negsuc 0) a) result }
{
    if a % 2 == 0 {
        modulus.of_u64(1)
    } else {
        modulus.of_i64(-1)
    }
}

/// The residue of the bottom.
fn bottom(setup: &Setup, i: u8, j: u8, a: u8, modulus: &Modulus) -> u64
    requires i_within { i < length setup.now }
    requires j_within { j < length setup.now }
    requires a_limited { a ≤ 10 }
    ensures { Leaves modulus.now (edge_bottom setup.now i j a) result }
{
    let squared = modulus.pow(modulus.factorial(a), 2);
    let own = modulus.mul(modulus.of_u64(a as u64), squared);
    let difference = modulus.sub(
        setup.weight_modulo(i, modulus),
        setup.weight_modulo(j, modulus),
    );
    let differences = modulus.mul(own, modulus.pow(difference, 2 * a as u64));
    modulus.mul(differences, other_colours(setup, i, j, a, modulus))
}

/// The residue of the product over the colours other than `i` and `j`.
fn other_colours(setup: &Setup, i: u8, j: u8, a: u8, modulus: &Modulus) -> u64
    requires i_within { i < length setup.now }
    requires j_within { j < length setup.now }
    requires a_limited { a ≤ 10 }
    ensures { Leaves modulus.now (other_colours_product setup.now i j a) result }
{
    let mut product = modulus.of_u64(1);
    for k in 0..setup.rank() + 1 {
        product = modulus.mul(product, colour_factor(setup, i, j, a, k, modulus));
    }
    product
}

/// The residue of the factor of the colour `k`, which is 1 at `i` and at `j`.
fn colour_factor(setup: &Setup, i: u8, j: u8, a: u8, k: u8, modulus: &Modulus) -> u64
    requires i_within { i < length setup.now }
    requires j_within { j < length setup.now }
    requires k_within { k < length setup.now }
    requires a_limited { a ≤ 10 }
    ensures { Leaves modulus.now (colour_factor setup.now i j a k) result }
{
    if k == i || k == j {
        modulus.of_u64(1)
    } else {
        colour_product(setup, i, j, a, k, modulus)
    }
}

/// The residue of the product over `t` for one other colour `k`. Its factors begin at `a (L_j - L_k)` and rise by
/// `L_i - L_j`.
fn colour_product(setup: &Setup, i: u8, j: u8, a: u8, k: u8, modulus: &Modulus) -> u64
    requires i_within { i < length setup.now }
    requires j_within { j < length setup.now }
    requires k_within { k < length setup.now }
    requires a_limited { a ≤ 10 }
    ensures { Leaves modulus.now (colour_product setup.now i j a k) result }
{
    let at_j = setup.weight_modulo(j, modulus);
    let above_k = modulus.sub(at_j, setup.weight_modulo(k, modulus));
    let first = modulus.mul(modulus.of_u64(a as u64), above_k);
    let step = modulus.sub(setup.weight_modulo(i, modulus), at_j);
    modulus.progression_product(first, step, a as u64 + 1)
}

#[cfg(test)]
mod tests;
