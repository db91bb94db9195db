//! A problem, whose type keeps the rules.

ghost use Rattle.problem.specs.Rules.{KeepsRules};
ghost use Rattle.classes.proofs.ClassFacts.{class_facts};

use decorated_tree::Shape;
use residue::{Integrals, Moduli, Setup};

/// A problem. Its type keeps all of its rules.
#[derive(Debug, Drop)]
pub struct Problem {
    /// The rank r from 1 to 12, the degree d from 1 to 10 and the number of marks m from 0 to 12, with at most 2^40
    /// decorated trees.
    pub shape: Shape,
    /// The weights of the torus, one for each of the r + 1 coordinates.
    pub setup: Setup,
    /// 1 to 8 moduli, pairwise coprime, with a product M below 2^126.
    pub moduli: Moduli,
    /// The bound A on the numerator, from 1 to 2^62 - 1.
    pub top_bound: u64,
    /// The bound B on the denominator, from 1 to 2^62 - 1, with 2AB below M.
    pub bottom_bound: u64,
    /// 1 to 8 integrals, of 1 to 32 terms in all, each term of the dimension (r+1)d + r - 3 + m.
    pub integrals: Integrals,
    pub ghost rules: { KeepsRules (record {
      shape = shape;
      weights = setup;
      moduli = moduli;
      top_bound = top_bound;
      bottom_bound = bottom_bound;
      integrals = integrals;
    }) } by { Prim.hlevel class_facts },
}
