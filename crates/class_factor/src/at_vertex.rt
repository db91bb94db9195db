//! The part of a class at a vertex.

ghost use Rattle.std.specs.Prelude.{◌-◌, ◌<◌, ◌≤◌, length, ℤ, ◌*ℤ◌};
ghost use Rattle.arithmetic.specs.Numbers.{Leaves, power};
ghost use Rattle.localisation.specs.Weights.{weight};
ghost use Rattle.localisation.specs.ClassValue.{class_vertex};
ghost use Rattle.residue.specs.Answers.{GivesResidue};
ghost use Rattle.residue.specs.Ratios.{IsRatioOf};
ghost use Rattle.residue.specs.Degrees.{HasParameterWithinLimit};

use residue::{Class, Modulus, NoUnit, Ratio, Setup};

/// The residue of the fraction of a class at a vertex of colour `c`, at most the rank, with `s` edges, from 1 to 10.
/// The parameter of the class, if it has one, is within its limit.
///
/// # Errors
/// `NoUnit` exactly if the bottom of the fraction and the modulus have a common divisor above 1.
pub fn vertex_part(
    setup: &Setup,
    class: &Class,
    c: u8,
    s: u8,
    modulus: &Modulus,
) -> Result<u64, NoUnit>
    requires parameter { HasParameterWithinLimit class.now }
    requires c_within { c < length setup.now }
    requires s_positive { 1 ≤ s }
    requires s_limited { s ≤ 10 }
    ensures { GivesResidue modulus.now (class_vertex setup.now class.now c s) result }
{
    vertex_part_ratio(setup, class, c, s, modulus).residue(modulus)
}

/// The residues of the top and the bottom of the same fraction, without a division. With no edge the power is 0 too.
pub fn vertex_part_ratio(setup: &Setup, class: &Class, c: u8, s: u8, modulus: &Modulus) -> Ratio
    requires c_within { c < length setup.now }
    ensures { IsRatioOf modulus.now (class_vertex setup.now class.now c s) result }
{
    let one = modulus.of_u64(1);
    match *class {
        Class::Hypersurface { b } => {
            let scale = modulus.of_u64(b as u64);
            Ratio {
                top: one,
                bottom: scaled_power(setup, scale, c, s, modulus),
            }
        }
        Class::R1 { k } => {
            let scale = modulus.sub(modulus.of_u64(0), modulus.of_u64(k as u64));
            Ratio::whole(scaled_power(setup, scale, c, s, modulus), modulus)
        }
        Class::Contact => {
            let scale = modulus.of_u64(2);
            Ratio::whole(scaled_power(setup, scale, c, s, modulus), modulus)
        }
        Class::Mark { .. } | Class::Incidence { .. } | Class::Psi { .. } => Ratio::whole(
            one, modulus,
        ),
    }
}

/// The residue of the power by `s - 1`, or 0, of the weight of `c` times the number that leaves `scale`.
fn scaled_power(setup: &Setup, scale: u64, c: u8, s: u8, modulus: &Modulus) -> u64
    requires scale_below { scale < modulus.now }
    requires c_within { c < length setup.now }
    ensures { (z : ℤ) → Leaves modulus.now z scale
        → Leaves modulus.now (power (z *ℤ weight setup.now c) (s - 1)) result }
{
    let scaled = modulus.mul(scale, setup.weight_modulo(c, modulus));
    modulus.pow(scaled, s.saturating_sub(1) as u64)
}
