//! Shards, which keep in their type that they are one.

ghost use Rattle.std.specs.Prelude.{◌≡◌, ◌<◌, ◌≤◌};
ghost use Rattle.problem.specs.Problems as problems;
ghost use Rattle.problem.specs.Sums.{count_of};
ghost use Rattle.checkpoint.specs.States.{AreResidues};
ghost use Rattle.shard_merge.specs.Shards.{IsShard};

use problem::Problem;
use residue::{Bytes, Residues};
use std::marker::Model;

/// The sums of a problem over a range of its trees: the source of the problem, the first number of the range, its end,
/// which is past its last number, and the residues of the sums.
///
/// Its type keeps that the problem is the reading of the source, that the range has a number and ends at the number of
/// trees or before, and that there is one residue for each integral and modulus, below its modulus. A shard does not
/// say that its residues are those of the trees of its range: `IsTrueShard` does.
#[derive(Debug, Drop)]
pub struct Shard {
    source: Bytes,
    problem: Problem,
    first: u64,
    end: u64,
    residues: Residues,
}

impl Model for Shard {
    ghost use Rattle.problem.specs.Problems as problems;
    ghost use Rattle.shard_merge.specs.Shards.{ShardView, IsShard};

    ghost Value = { ShardView };

    ghost view = { λ s. record {
      source = s.source;
      problem = problems.view s.problem;
      first = s.first;
      end = s.end;
      residues = s.residues;
    } };

    ghost invariant = { λ s. IsShard (record {
      source = s.source;
      problem = problems.view s.problem;
      first = s.first;
      end = s.end;
      residues = s.residues;
    }) };
}

impl Shard {
    /// The shard with these parts: a source, the problem that it stands for, the first number of a range, its end,
    /// above the first number and at most the number of trees, and residues, integral by integral and within one
    /// integral modulus by modulus. It takes no memory.
    pub fn new(source: Bytes, problem: Problem, first: u64, end: u64, residues: Residues) -> Shard
        requires { IsShard (record {
          source = source;
          problem = problems.view problem;
          first = first;
          end = end;
          residues = residues;
        }) }
        ensures value { result ≡ record {
          source = source;
          problem = problems.view problem;
          first = first;
          end = end;
          residues = residues;
        } }
        ensures is_shard { IsShard result }
    {
        Shard {
            source,
            problem,
            first,
            end,
            residues,
        }
    }

    /// The text that the problem was read from.
    pub fn source(&self) -> &[u8]
        ensures value { result.now ≡ self.now.source }
        ensures is_shard { IsShard self.now }
    {
        self.source.as_slice()
    }

    /// The problem.
    pub fn problem(&self) -> &Problem
        ensures value { problems.view result.now ≡ self.now.problem }
        ensures is_shard { IsShard self.now }
    {
        &self.problem
    }

    /// The first number of the range.
    pub fn first(&self) -> u64
        ensures value { result ≡ self.now.first }
        ensures some { result < self.now.end }
    {
        self.first
    }

    /// The end of the range: the number past its last, at most the number of trees.
    pub fn end(&self) -> u64
        ensures value { result ≡ self.now.end }
        ensures most { result ≤ count_of self.now.problem }
    {
        self.end
    }

    /// The residues of the sums, integral by integral and within one integral modulus by modulus.
    pub fn residues(&self) -> &[u64]
        ensures value { result.now ≡ self.now.residues }
        ensures below { AreResidues self.now.problem result.now }
    {
        self.residues.as_slice()
    }
}
