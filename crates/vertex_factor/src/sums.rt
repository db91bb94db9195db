//! The sums and products over the ends at a vertex.

ghost use Rattle.std.specs.Prelude.{◌≡◌, ◌<◌, length, All, List, ◌∷◌, [], ◌++◌, ◌-ℤ◌};
ghost use Rattle.arithmetic.specs.Numbers.{Leaves};
ghost use Rattle.localisation.specs.Weights.{weight};
ghost use Rattle.localisation.specs.VertexFraction.{End};
ghost use Rattle.vertex_factor.specs.Ends.{end, ends_of};
ghost use Rattle.vertex_factor.specs.EndSums.{AreSums};

use residue::{Modulus, Setup};

/// Residues of what a vertex takes from its ends.
#[derive(Clone, Copy)]
pub(crate) struct EndSums {
    /// The product of the degrees.
    pub degrees: u64,
    /// The product of the differences of the weights.
    pub differences: u64,
    /// The sum over the ends of the degree times the differences of the other ends.
    pub crossed: u64,
}

/// The residues over all ends at a vertex of colour `c`.
pub(crate) fn sums_over(setup: &Setup, c: u8, ends: &[(u8, u8)], modulus: &Modulus) -> EndSums
    requires c_within { c < length setup.now }
    requires colours_within { All (λ e. e.0 < length setup.now) ends.now }
    ensures { AreSums modulus.now setup.now c (ends_of ends.now) result }
{
    let mut sums = EndSums {
        degrees: modulus.of_u64(1),
        differences: modulus.of_u64(1),
        crossed: modulus.of_u64(0),
    };
    for (colour, degree) in ends {
        sums = with_end(setup, c, sums, *colour, *degree, modulus);
    }
    sums
}

/// The residues over one more end, beside a vertex of colour `u` by an edge of degree `a`.
fn with_end(setup: &Setup, c: u8, sums: EndSums, u: u8, a: u8, modulus: &Modulus) -> EndSums
    requires c_within { c < length setup.now }
    requires u_within { u < length setup.now }
    requires degrees_below { sums.degrees < modulus.now }
    requires differences_below { sums.differences < modulus.now }
    requires crossed_below { sums.crossed < modulus.now }
    ensures { (es : List End) → AreSums modulus.now setup.now c es sums
        → AreSums modulus.now setup.now c (es ++ end u a ∷ []) result }
{
    let degree = modulus.of_u64(a as u64);
    let difference = difference(setup, c, u, modulus);
    let old_ends = modulus.mul(sums.crossed, difference);
    let new_end = modulus.mul(degree, sums.differences);
    EndSums {
        degrees: modulus.mul(sums.degrees, degree),
        differences: modulus.mul(sums.differences, difference),
        crossed: modulus.add(old_ends, new_end),
    }
}

/// The residue of the difference of the weights of the colours `c` and `u`.
pub(crate) fn difference(setup: &Setup, c: u8, u: u8, modulus: &Modulus) -> u64
    requires c_within { c < length setup.now }
    requires u_within { u < length setup.now }
    ensures { Leaves modulus.now (weight setup.now c -ℤ weight setup.now u) result }
{
    modulus.sub(
        setup.weight_modulo(c, modulus),
        setup.weight_modulo(u, modulus),
    )
}
