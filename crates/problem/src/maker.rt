//! The maker of problems, which tests the rules.

ghost use Rattle.std.specs.Prelude.{◌≡◌, ◌+◌, ◌^◌, ◌≤◌, ◌↔◌, true, length, IsTrue, IsSome, IfSome};
ghost use Rattle.decorated_tree.specs.Shapes.{within_limits};
ghost use Rattle.trees.specs.TreeNumbers.{tree_count};
ghost use Rattle.residue.specs.Limits.{AreWeights};
ghost use Rattle.problem.specs.Problems.{view as problem_view};
ghost use Rattle.problem.specs.Rules.{KeepsRules, problem_of_parts};

use crate::integrals::are_integrals;
use crate::moduli::{are_bounds, are_moduli};
use crate::problem::Problem;
use crate::weights::rank_of;
use decorated_tree::Shape;
use residue::{Integrals, Moduli, Setup};

impl Problem {
    /// The problem of these parts, or `None` if they break a rule that the fields name.
    pub fn new(
        shape: Shape,
        setup: Setup,
        moduli: Moduli,
        top_bound: u64,
        bottom_bound: u64,
        integrals: Integrals,
    ) -> Option<Self>
        ensures rules { IsSome result ↔ KeepsRules (problem_of_parts shape setup moduli top_bound bottom_bound integrals) }
        ensures made { IfSome result (λ problem. problem_view problem ≡ problem_of_parts shape setup moduli top_bound bottom_bound integrals) }
    {
        let keeps = has_weights(&shape, &setup)
            && are_moduli(moduli.as_slice())
            && are_bounds(moduli.as_slice(), top_bound, bottom_bound)
            && are_integrals(integrals.as_slice(), &shape);
        if !keeps {
            return None;
        }
        Some(Problem {
            shape,
            setup,
            moduli,
            top_bound,
            bottom_bound,
            integrals,
        })
    }
}

/// Whether there is one weight for each coordinate of the projective space. What the types of the shape and of the
/// weights keep comes with the answer.
fn has_weights(shape: &Shape, setup: &Setup) -> bool
    ensures count { IsTrue result ↔ (length setup.now ≡ shape.now.rank + 1) }
    ensures weights { AreWeights setup.now }
    ensures shape { within_limits shape.now ≡ true }
    ensures few_trees { tree_count shape.now ≤ 2 ^ 40 }
{
    let _ = shape.count();
    rank_of(setup) == shape.r()
}
