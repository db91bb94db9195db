//! The exponents of psi classes at the marks of a vertex.

ghost use Rattle.std.specs.Prelude.{◌≡◌, ◌<◌, ◌≤◌, ◌++◌, ◌∷◌, [], ℕ, length, map, sum};
ghost use Rattle.localisation.specs.ClassValue.{psi_power, exponent_of};

use residue::{Class, Power, Term};
use std::marker::Model;

/// At most twelve exponents, one for each mark at a vertex.
#[derive(Drop)]
pub struct Exponents {
    items: [u8; 12],
    count: usize,
}

impl Model for Exponents {
    ghost use Rattle.std.specs.Prelude.{◌≤◌, ℕ, List, take};

    ghost Value = { List ℕ };

    ghost view = { λ e. take e.count e.items };

    ghost invariant = { λ e. e.count ≤ 12 };
}

impl Exponents {
    /// No exponents.
    fn none() -> Self
        ensures { result ≡ [] }
    {
        Exponents {
            items: [0; 12],
            count: 0,
        }
    }

    /// Puts an exponent after the others.
    fn push(&mut self, exponent: u8)
        requires { length self.old < 12 }
        ensures { self.new ≡ self.old ++ exponent ∷ [] }
    {
        self.items[self.count] = exponent;
        self.count += 1;
    }

    /// The exponents.
    pub fn as_slice(&self) -> &[u8]
        ensures value { result.now ≡ self.now }
        ensures limited { length self.now ≤ 12 }
    {
        &self.items[..self.count]
    }
}

/// The exponents of a term at marks, which are counted from 1, in their order. There are at most 12 marks, and the
/// exponent of each mark in the term is at most 151.
pub fn exponents_of(term: &Term, marks: &[u8]) -> Exponents
    requires marks_limited { length marks.now ≤ 12 }
    requires exponents_limited { (j : ℕ) → exponent_of term.now j ≤ 151 }
    ensures { result ≡ map (exponent_of term.now) marks.now }
{
    let mut exponents = Exponents::none();
    for mark in marks {
        exponents.push(exponent_of(term.classes.as_slice(), *mark));
    }
    exponents
}

/// The exponent of a mark: the sum of the powers of the psi classes there.
fn exponent_of(powers: &[Power], mark: u8) -> u8
    requires { sum (map (psi_power mark) powers.now) ≤ 151 }
    ensures { result ≡ sum (map (psi_power mark) powers.now) }
{
    let sum: u64 = powers.iter().map(|power| psi_power(power, mark)).sum();
    sum as u8
}

/// The power of a psi class at a mark, 0 for every other class.
fn psi_power(power: &Power, mark: u8) -> u64
    ensures { result ≡ psi_power mark power.now }
{
    match power.class {
        Class::Psi { mark: own } if own == mark => power.power as u64,
        _ => 0,
    }
}
