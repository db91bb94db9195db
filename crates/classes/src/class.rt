//! Classes, their powers and terms: what is integrated.

use lists::Items;

/// A class on the space of stable maps of degree `d` with marks 1 to `m`.
///
/// The names say what the classes are meant for; their values at a decorated tree are the definitions of
/// `localisation`.
#[derive(Clone, Copy, Debug, PartialEq, Eq, Drop)]
pub enum Class {
    /// The hyperplane class pulled back at the mark `mark`, from 1 to `m`.
    Mark { mark: u8 },
    /// Sections of O(`b`) along the curve, `b` from 1 to 64: the hypersurface of degree `b`.
    Hypersurface { b: u8 },
    /// The curve meets a linear space of codimension `q`, from 2 to 12.
    Incidence { q: u8 },
    /// The first direct image of O(-`k`), `k` from 1 to 64.
    R1 { k: u8 },
    /// The curve is tangent to the contact distribution.
    Contact,
    /// The first Chern class of the cotangent line at the mark `mark`, from 1 to `m`.
    Psi { mark: u8 },
}

impl Class {
    ghost use Rattle.std.specs.Prelude.{◌≡◌, ◌≤◌};
    ghost use Rattle.classes.specs.Degrees.{HasParameterWithinLimit, class_degree};

    /// The degree of the class on the maps of degree `d`, from 1 to 10: 1 for `Mark` and `Psi`, `b d + 1` for
    /// `Hypersurface`, `q - 1` for `Incidence`, `k d - 1` for `R1` and `2 d - 1` for `Contact`.
    ///
    /// The parameter `b`, `q` or `k`, if the class has one, is within its limit.
    pub fn degree(&self, d: u8) -> u64
        requires parameter { HasParameterWithinLimit self.now }
        requires d_positive { 1 ≤ d }
        requires d_limited { d ≤ 10 }
        ensures { result ≡ class_degree self.now d }
    {
        let d = d as u64;
        match *self {
            Class::Mark { .. } | Class::Psi { .. } => 1,
            Class::Hypersurface { b } => b as u64 * d + 1,
            Class::Incidence { q } => q as u64 - 1,
            Class::R1 { k } => k as u64 * d - 1,
            Class::Contact => 2 * d - 1,
        }
    }
}

/// A class to the power `power`, from 1 to 64.
#[derive(Clone, Copy, Debug, PartialEq, Eq, Drop)]
pub struct Power {
    pub class: Class,
    pub power: u8,
}

/// A coefficient, at least -1,000,000,000 and at most 1,000,000,000, times a product of powers of classes.
#[derive(Debug, Drop)]
pub struct Term {
    pub coefficient: i64,
    pub classes: Powers,
}

/// The powers of classes of a term, in order.
pub type Powers = Items<Power>;

/// The terms of an integral, in order.
pub type Terms = Items<Term>;

/// The integrals of a problem over the same trees, in order.
pub type Integrals = Items<Terms>;
