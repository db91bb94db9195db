//! The part of a class at an edge.

ghost use Rattle.std.specs.Prelude.{◌≢◌, ◌+◌, ◌-◌, ◌*◌, ◌<◌, ◌≤◌, length};
ghost use Rattle.arithmetic.specs.Numbers.{Leaves};
ghost use Rattle.localisation.specs.ClassValue.{class_edge, sections_product, inner_product, negated_inner_product};
ghost use Rattle.residue.specs.Answers.{GivesResidue};
ghost use Rattle.residue.specs.Ratios.{IsRatioOf};
ghost use Rattle.residue.specs.Degrees.{HasParameterWithinLimit};

use residue::{Class, Modulus, NoUnit, Ratio, Setup};

/// The residue of the fraction of a class at an edge of degree `a`, from 1 to 10, between vertices of two different
/// colours `i` and `j`, each at most the rank. The parameter of the class, if it has one, is within its limit.
///
/// # Errors
/// `NoUnit` exactly if the bottom of the fraction and the modulus have a common divisor above 1.
pub fn edge_part(
    setup: &Setup,
    class: &Class,
    i: u8,
    j: u8,
    a: u8,
    modulus: &Modulus,
) -> Result<u64, NoUnit>
    requires parameter { HasParameterWithinLimit class.now }
    requires i_within { i < length setup.now }
    requires j_within { j < length setup.now }
    requires distinct { i ≢ j }
    requires a_positive { 1 ≤ a }
    requires a_limited { a ≤ 10 }
    ensures { GivesResidue modulus.now (class_edge setup.now class.now i j a) result }
{
    edge_part_ratio(setup, class, i, j, a, modulus).residue(modulus)
}

/// The residues of the top and the bottom of the same fraction, without a division.
pub fn edge_part_ratio(
    setup: &Setup,
    class: &Class,
    i: u8,
    j: u8,
    a: u8,
    modulus: &Modulus,
) -> Ratio
    requires parameter { HasParameterWithinLimit class.now }
    requires i_within { i < length setup.now }
    requires j_within { j < length setup.now }
    requires a_positive { 1 ≤ a }
    requires a_limited { a ≤ 10 }
    ensures { IsRatioOf modulus.now (class_edge setup.now class.now i j a) result }
{
    let degree = a as u64;
    let of_degree = modulus.of_u64(degree);
    match *class {
        Class::Hypersurface { b } => {
            let sections = b as u64 * degree;
            Ratio {
                top: sections_product(setup, i, j, sections, modulus),
                bottom: modulus.pow(of_degree, sections + 1),
            }
        }
        Class::R1 { k } => {
            let sections = k as u64 * degree;
            Ratio {
                top: negated_inner_product(setup, i, j, sections, modulus),
                bottom: modulus.pow(of_degree, sections - 1),
            }
        }
        Class::Contact => Ratio {
            top: inner_product(setup, i, j, 2 * degree, modulus),
            bottom: modulus.pow(of_degree, 2 * degree - 1),
        },
        Class::Mark { .. } | Class::Incidence { .. } | Class::Psi { .. } => {
            let one = modulus.of_u64(1);
            Ratio::whole(one, modulus)
        }
    }
}

/// The residue of the product over `t` from 0 to `n` of `t L_i + (n-t) L_j`, whose factors rise by `L_i - L_j`.
fn sections_product(setup: &Setup, i: u8, j: u8, n: u64, modulus: &Modulus) -> u64
    requires i_within { i < length setup.now }
    requires j_within { j < length setup.now }
    requires n_limited { n ≤ 640 }
    ensures { Leaves modulus.now (sections_product setup.now i j n) result }
{
    let at_j = setup.weight_modulo(j, modulus);
    let first = modulus.mul(modulus.of_u64(n), at_j);
    let step = modulus.sub(setup.weight_modulo(i, modulus), at_j);
    modulus.progression_product(first, step, n + 1)
}

/// The residue of the product of the same factors over `t` from 1 to `n - 1`.
fn inner_product(setup: &Setup, i: u8, j: u8, n: u64, modulus: &Modulus) -> u64
    requires i_within { i < length setup.now }
    requires j_within { j < length setup.now }
    requires n_positive { 1 ≤ n }
    ensures { Leaves modulus.now (inner_product setup.now i j n) result }
{
    let at_j = setup.weight_modulo(j, modulus);
    let step = modulus.sub(setup.weight_modulo(i, modulus), at_j);
    let first = modulus.add(modulus.mul(modulus.of_u64(n), at_j), step);
    modulus.progression_product(first, step, n - 1)
}

/// The residue of the product of the negatives of these factors over `t` from 1 to `n - 1`.
fn negated_inner_product(setup: &Setup, i: u8, j: u8, n: u64, modulus: &Modulus) -> u64
    requires i_within { i < length setup.now }
    requires j_within { j < length setup.now }
    requires n_positive { 1 ≤ n }
    ensures { Leaves modulus.now (negated_inner_product setup.now i j n) result }
{
    let at_j = setup.weight_modulo(j, modulus);
    let step = modulus.sub(at_j, setup.weight_modulo(i, modulus));
    let first = modulus.sub(step, modulus.mul(modulus.of_u64(n), at_j));
    modulus.progression_product(first, step, n - 1)
}
