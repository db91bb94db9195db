//! The factors themselves, computed anew.

ghost use Rattle.std.specs.Prelude.{◌≡◌, ◌≢◌, ◌+◌, ◌<◌, ◌≤◌, length, ℤ, pos};
ghost use Rattle.residue.specs.Answers.{GivesResidue};
ghost use Rattle.factor_table.specs.Factors.{tip_fraction, fraction_of, IsKeyOf};

use crate::key::Key;
use crate::parameters::Parameters;
use class_factor::{edge_part, vertex_part};
use edge_factor::edge;
use residue::{Modulus, NoUnit, Ratio, Setup};
use vertex_factor::{flag, pair, tangent};

impl Parameters {
    /// The residue of the factor of a key, which is one of a table of these parameters.
    ///
    /// # Errors
    /// `NoUnit` exactly if the bottom of the factor's fraction and the modulus have a common divisor above 1.
    pub fn factor(&self, key: Key, modulus: &Modulus) -> Result<u64, NoUnit>
        requires key { IsKeyOf self.now key }
        requires degree { self.now.degree ≤ 10 }
        ensures { GivesResidue modulus.now (fraction_of self.now key) result }
    {
        let setup = &self.setup;
        match key {
            Key::Edge { i, j, a } => edge(setup, i, j, a, modulus),
            Key::Flag { c, u, a } => flag(setup, c, u, a, modulus),
            Key::Tangent { c } => Ok(tangent(setup, c, modulus)),
            Key::Pair { c, c1, a1, c2, a2 } => pair(setup, c, c1, a1, c2, a2, modulus),
            Key::ClassEdge { class, i, j, a } => {
                let class = self.classes.get(class as usize);
                edge_part(setup, class, i, j, a, modulus)
            }
            Key::ClassVertex { class, c, s } => {
                let class = self.classes.get(class as usize);
                vertex_part(setup, class, c, s, modulus)
            }
            Key::Tip { c, u, a } => tip(setup, c, u, a, modulus),
        }
    }
}

/// The residue of the difference of the weights of `u` and `c`, each at most the rank, over the degree `a`: the factor
/// of a vertex of colour `c` with one mark, under a psi class to the power 1, and one edge to a vertex of colour `u`.
///
/// # Errors
/// `NoUnit` exactly if the degree and the modulus have a common divisor above 1.
pub fn tip(setup: &Setup, c: u8, u: u8, a: u8, modulus: &Modulus) -> Result<u64, NoUnit>
    requires c_within { c < length setup.now }
    requires u_within { u < length setup.now }
    ensures { GivesResidue modulus.now (tip_fraction setup.now c u a) result }
{
    let at_u = setup.weight_modulo(u, modulus);
    let ratio = Ratio {
        top: modulus.sub(at_u, setup.weight_modulo(c, modulus)),
        bottom: modulus.of_u64(a as u64),
    };
    ratio.residue(modulus)
}
