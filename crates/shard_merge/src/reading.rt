//! Reading the text of a shard.

ghost use Rattle.std.specs.Prelude.{◌≡◌, ◌≢◌, Ok, Err, IfOk, IfErr};
ghost use Rattle.problem.specs.Problems as problems;
ghost use Rattle.problem_toml.specs.Reading.{reading};
ghost use Rattle.shard_merge.specs.Bodies.{contents_of};
ghost use Rattle.shard_merge.specs.Readers.{problem_or_refusal, shard_of, short_reading, shard_reading};
ghost use Rattle.shard_merge.specs.Refusals.{IsShardRefusal};
ghost use Rattle.shard_merge.specs.Shards.{ShardView, IsShard};
ghost use Rattle.shard_merge.specs.Steps.{Gives};
ghost use Rattle.shard_merge.specs.Texts.{text_in};

use crate::body::{Body, written};
use crate::shard::Shard;
use crate::shard_error::ShardError;
use checkpoint::residues::{check_counts, check_residues, joined, shown_count};
use problem::Problem;
use problem_toml::ProblemError;
use residue::{Bytes, Residues};
use std::alloc::Global;

const LONGEST: usize = 1_052_672;

/// The problem of a source.
fn problem(alloc: Global, source: &[u8]) -> Result<Problem, ShardError>
    ensures { Gives problems.view result (problem_or_refusal (reading source.now)) }
{
    match problem_toml::read(alloc, source) {
        Ok(problem) => Ok(problem),
        Err(ProblemError::NoMemory) => Err(ShardError::NoMemory),
        Err(why) => Err(ShardError::ProblemRefused { why }),
    }
}

/// The shard that a text writes.
#[tactic(auto, unfolding(crate::specs::Readers::shard_of))]
fn shard(alloc: Global, body: Body) -> Result<Shard, ShardError>
    ensures value { Gives (λ shard. shard) result (shard_of (contents_of body.entry)) }
    ensures is_shard { IfOk result IsShard }
{
    let problem = problem(alloc, body.source)?;
    let count = problem.shape.count();
    if body.first >= body.end || body.end > count {
        return Err(ShardError::RangeRefused {
            first: body.first,
            end: body.end,
            count,
        });
    }
    let wanted = problem.integrals.len();
    if body.rows.len() != wanted {
        return Err(ShardError::LineCount {
            found: shown_count(body.rows.len()),
            wanted: wanted as u32,
        });
    }
    check_counts(body.rows.as_slice(), problem.moduli.len() as u32)?;
    let residues = joined(alloc, body.rows.as_slice())?;
    check_residues(&problem.moduli, residues.as_slice())?;
    let source = Vec::from_slice(alloc, body.source)?;
    Ok(Shard::new(
        Bytes::of(source),
        problem,
        body.first,
        body.end,
        Residues::of(residues),
    ))
}

#[tactic(auto, unfolding(crate::specs::Readers::short_reading))]
fn read_short(alloc: Global, text: &[u8]) -> Result<Shard, ShardError>
    ensures value { Gives (λ shard. shard) result (short_reading text.now) }
    ensures is_shard { IfOk result IsShard }
{
    let body = written(alloc, text)?;
    shard(alloc, body)
}

#[tactic(auto, unfolding(crate::specs::Readers::shard_reading))]
fn read_any_length(alloc: Global, text: &[u8]) -> Result<Shard, ShardError>
    ensures value { Gives (λ shard. shard) result (shard_reading text.now) }
    ensures is_shard { IfOk result IsShard }
{
    if text.len() > LONGEST {
        return Err(ShardError::TooLong);
    }
    read_short(alloc, text)
}

/// Reads the text of a shard.
///
/// # Errors
/// The first refusal whose condition holds, in their order: [`ShardError`] says what each refuses. Want of memory is
/// [`ShardError::NoMemory`] and says nothing of the text.
pub fn read(alloc: Global, text: &[u8]) -> Result<Shard, ShardError>
    // What is read is a shard with this text, and what is refused is refused for its first cause.
    ensures is_shard { IfOk result IsShard }
    ensures shard { IfOk result (λ shard. text.now ≡ text_in shard) }
    ensures refusal { IfErr result (λ error. error ≢ ShardError.NoMemory → IsShardRefusal text.now error) }
    // The text of a shard is read as that shard, and a text with a refusal is refused so, unless memory runs out.
    ensures only_shard { (s : ShardView) → IsShard s → text.now ≡ text_in s → Gives (λ shard. shard) result (Ok s) }
    ensures only_refusal { (error : ShardError) → IsShardRefusal text.now error →
        Gives (λ shard. shard) result (Err error) }
{
    read_any_length(alloc, text)
}
