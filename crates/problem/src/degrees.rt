//! The degrees of terms.

ghost use Rattle.std.specs.Prelude.{◌≡◌, ◌≤◌, ◌<◌, ◌↔◌, IsTrue, All, length};
ghost use Rattle.classes.specs.Degrees.{HasParameterWithinLimit};
ghost use Rattle.problem.specs.Rules.{IsTerm, HasDimension, IsTermOf, dimension_of, powers_degree};

use crate::limits::is_term;
use decorated_tree::Shape;
use residue::{Power, Term};

/// The degree of a product of at most 16 powers of classes on the maps of degree `d`, from 1 to 10: the sum of degree
/// times power. The parameter of each class is within its limits.
pub fn degree(d: u8, powers: &[Power]) -> u64
    requires least { 1 ≤ d }
    requires most { d ≤ 10 }
    requires parameters { All (λ power. HasParameterWithinLimit power.class) powers.now }
    requires count { length powers.now ≤ 16 }
    ensures { result ≡ powers_degree d powers.now }
{
    let mut degree = 0;
    for power in powers {
        degree += power.class.degree(d) * power.power as u64;
    }
    degree
}

/// The dimension (r+1)d + r - 3 + m that each term has as its degree.
fn dimension(shape: &Shape) -> u64
    ensures { result ≡ dimension_of shape.now }
{
    let (r, d, m) = (shape.r() as u64, shape.d() as u64, shape.m() as u64);
    (r + 1) * d + r + m - 3
}

/// Whether a term that is within its limits has the dimension as its degree.
fn has_dimension(term: &Term, shape: &Shape) -> bool
    requires { IsTerm shape.now.marks term.now }
    ensures { IsTrue result ↔ HasDimension shape.now term.now }
{
    degree(shape.d(), term.classes.as_slice()) == dimension(shape)
}

/// Whether a term is within its limits and has the dimension as its degree.
pub fn is_term_of(term: &Term, shape: &Shape) -> bool
    ensures { IsTrue result ↔ IsTermOf shape.now term.now }
{
    is_term(term, shape.m()) && has_dimension(term, shape)
}
