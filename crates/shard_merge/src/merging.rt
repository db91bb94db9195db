//! Merging shards.

ghost use Rattle.std.specs.Prelude.{◌≡◌, ◌≢◌, ℕ, ◌%◌, ◌<◌, ◌≤◌, All, Ok, IfOk, IfErr, length, slice_index, sum_by};
ghost use Rattle.localisation.specs.Agreement.{modulus_at};
ghost use Rattle.problem.specs.Problems as problems;
ghost use Rattle.problem.specs.Sums.{places_of};
ghost use Rattle.problem_toml.specs.Reading.{reading};
ghost use Rattle.checkpoint.specs.States.{AreResidues};
ghost use Rattle.shard_merge.specs.Merges.{AreMergeable, IsMerge, IsMergeRefusal, IsRefusedFor, IsTrueMerge, residue_at};
ghost use Rattle.shard_merge.specs.Shards.{IsShard, IsTrueShard};

use crate::merge_error::MergeError;
use crate::shard::Shard;
use crate::tiling::tiled;
use checkpoint::State;
use checkpoint::residues::zeros;
use problem::Problem;
use residue::{Bytes, NoMemory, Residues};
use std::alloc::Global;
use sum_job::add_residues;

/// What shards make.
#[derive(Debug, Drop)]
pub enum Merged {
    /// The shards begin at the number 0, so the sum can go on from a state.
    Begun { state: State },
    /// They begin later, and make a shard.
    Middle { shard: Shard },
}

/// The problem of a source that is one.
fn problem(alloc: Global, source: &[u8]) -> Result<Problem, NoMemory>
    ensures { IfOk result (λ problem. reading source.now ≡ Ok (problems.view problem)) }
{
    match problem_toml::read(alloc, source) {
        Ok(problem) => Ok(problem),
        Err(_) => Err(NoMemory),
    }
}

/// The sums of the residues of shards, each modulo its modulus.
fn summed(alloc: Global, problem: &Problem, shards: &[Shard]) -> Result<Vec<u64>, NoMemory>
    requires { All (λ shard. AreResidues (problems.view problem.now) shard.residues) shards.now }
    ensures residues { IfOk result (λ sums. AreResidues (problems.view problem.now) sums.items) }
    ensures sums { IfOk result (λ sums. (place : ℕ) → place < places_of (problems.view problem.now)
        → slice_index sums.items place
        ≡ sum_by (residue_at place) shards.now % modulus_at problem.now.moduli place) }
{
    let mut sums = zeros(alloc, problem.integrals.len() * problem.moduli.len())?;
    for shard in shards {
        add_residues(problem, &mut sums, shard.residues());
    }
    Ok(sums)
}

/// The sum of shards that can be merged, from their least first number to their greatest end.
fn union(alloc: Global, shards: &[Shard], first: u64, end: u64) -> Result<Merged, NoMemory>
    requires some { 1 ≤ length shards.now }
    requires shards { All IsShard shards.now }
    requires mergeable { AreMergeable shards.now first end }
    ensures { IfOk result (λ merged. IsMerge shards.now merged) }
{
    let source = shards[0].source();
    let problem = problem(alloc, source)?;
    let residues = Residues::of(summed(alloc, &problem, shards)?);
    let source = Bytes::of(Vec::from_slice(alloc, source)?);
    if first == 0 {
        let state = State::new(source, problem, end, residues);
        Ok(Merged::Begun { state })
    } else {
        let shard = Shard::new(source, problem, first, end, residues);
        Ok(Merged::Middle { shard })
    }
}

/// Merges 1 to 64 shards of one problem, in any order, whose ranges are together one range: into a state if this begins
/// at the number 0, and into a shard otherwise. The source is the common one, and the residues are the sums of those of
/// the shards, each modulo its modulus.
///
/// # Errors
/// The first refusal whose condition holds, in their order: [`MergeError`] says what each refuses. Want of memory is
/// [`MergeError::NoMemory`] and says nothing of the shards.
pub fn merge(alloc: Global, shards: &[Shard]) -> Result<Merged, MergeError>
    requires least { 1 ≤ length shards.now }
    requires most { length shards.now ≤ 64 }
    // What is merged is the sum of the shards, and what is refused is refused for its first cause.
    ensures merged { IfOk result (λ merged. IsMerge shards.now merged) }
    ensures refusal { IfErr result (λ error. error ≢ MergeError.NoMemory → IsMergeRefusal shards.now error) }
    // Shards that can be merged are merged, and those with a refusal are refused so, unless memory runs out.
    ensures only_merged { (first end : ℕ) → AreMergeable shards.now first end →
        IfErr result (λ error. error ≡ MergeError.NoMemory) }
    ensures only_refusal { (error : MergeError) → IsMergeRefusal shards.now error → IsRefusedFor result error }
    // The sum of true shards is true.
    ensures is_true { IfOk result (λ merged. All IsTrueShard shards.now → IsTrueMerge merged) }
{
    let (first, end) = tiled(shards)?;
    Ok(union(alloc, shards, first, end)?)
}
