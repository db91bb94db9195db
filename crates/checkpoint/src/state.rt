//! States, which keep in their type that they are one.

ghost use Rattle.std.specs.Prelude.{◌≡◌, ◌≤◌, IfOk};
ghost use Rattle.problem.specs.Problems as problems;
ghost use Rattle.problem.specs.Sums.{count_of};
ghost use Rattle.problem_toml.specs.Steps.{Gives};
ghost use Rattle.checkpoint.specs.States.{AreResidues, IsState, IsTrueState, fresh_of};

use crate::residues::zeros;
use problem::Problem;
use problem_toml::ProblemError;
use residue::{Bytes, Residues};
use std::alloc::Global;
use std::marker::Model;

/// How far the sum of a problem has come: the source of the problem, the number of the next tree, and the residues of
/// the sums so far.
///
/// Its type keeps that the problem is the reading of the source, that the next number is at most the number of trees,
/// and that there is one residue for each integral and modulus, below its modulus. A state does not say that its
/// residues are those of the trees before the next one: `IsTrueState` does.
#[derive(Debug, Drop)]
pub struct State {
    source: Bytes,
    problem: Problem,
    next: u64,
    residues: Residues,
}

impl Model for State {
    ghost use Rattle.problem.specs.Problems as problems;
    ghost use Rattle.checkpoint.specs.States.{StateView, IsState};

    ghost Value = { StateView };

    ghost view = { λ s. record {
      source = s.source;
      problem = problems.view s.problem;
      next = s.next;
      residues = s.residues;
    } };

    ghost invariant = { λ s. IsState (record {
      source = s.source;
      problem = problems.view s.problem;
      next = s.next;
      residues = s.residues;
    }) };
}

impl State {
    /// The state with these parts: a source, the problem that it stands for, the number of the next tree, from 0 to the
    /// number of trees, and residues, integral by integral and within one integral modulus by modulus. It takes no
    /// memory.
    pub fn new(source: Bytes, problem: Problem, next: u64, residues: Residues) -> State
        requires { IsState (record { source = source; problem = problems.view problem; next = next; residues = residues }) }
        ensures value { result
            ≡ record { source = source; problem = problems.view problem; next = next; residues = residues } }
        ensures is_state { IsState result }
    {
        State {
            source,
            problem,
            next,
            residues,
        }
    }

    /// The text that the problem was read from.
    pub fn source(&self) -> &[u8]
        ensures { result.now ≡ self.now.source }
    {
        self.source.as_slice()
    }

    /// The problem.
    pub fn problem(&self) -> &Problem
        ensures value { problems.view result.now ≡ self.now.problem }
        ensures is_state { IsState self.now }
    {
        &self.problem
    }

    /// The number of the next tree, from 0 to the number of trees.
    pub fn next(&self) -> u64
        ensures value { result ≡ self.now.next }
        ensures most { result ≤ count_of self.now.problem }
    {
        self.next
    }

    /// The residues of the sums so far, integral by integral and within one integral modulus by modulus.
    pub fn residues(&self) -> &[u64]
        ensures value { result.now ≡ self.now.residues }
        ensures below { AreResidues self.now.problem result.now }
    {
        self.residues.as_slice()
    }

    /// The state of the same source and problem with another next number, at most the number of trees, and other
    /// residues, each below its modulus. It takes no memory.
    pub fn with_progress(self, next: u64, residues: Residues) -> State
        requires next { next ≤ count_of self.problem }
        requires residues { AreResidues self.problem residues }
        ensures value { result ≡ record self { next = next; residues = residues } }
        ensures is_state { IsState result }
    {
        State::new(self.source, self.problem, next, residues)
    }
}

/// The state of a problem text before any tree is summed: the next number is 0, and so is each residue. It is true.
///
/// # Errors
/// Those of [`problem_toml::read`].
#[tactic(auto, unfolding(crate::specs::States::fresh_of))]
pub fn fresh(alloc: Global, source: &[u8]) -> Result<State, ProblemError>
    ensures value { Gives (λ state. state) result (fresh_of source.now) }
    ensures is_state { IfOk result IsState }
    ensures is_true { IfOk result IsTrueState }
{
    let problem = problem_toml::read(alloc, source)?;
    let residues = zeros(alloc, problem.integrals.len() * problem.moduli.len())?;
    let source = Vec::from_slice(alloc, source)?;
    Ok(State::new(Bytes::of(source), problem, 0, Residues::of(residues)))
}
