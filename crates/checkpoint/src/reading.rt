//! Reading a checkpoint.

ghost use Rattle.std.specs.Prelude.{◌≡◌, ◌≢◌, ◌≤◌, ◌<◌, length, Ok, Err, IfOk, IfErr};
ghost use Rattle.problem.specs.Problems as problems;
ghost use Rattle.problem.specs.Sums.{count_of};
ghost use Rattle.problem_toml.specs.Reading.{reading};
ghost use Rattle.checkpoint.specs.Bodies.{contents_of};
ghost use Rattle.checkpoint.specs.Readers.{problem_or_refusal, state_of, short_reading, checkpoint_reading};
ghost use Rattle.checkpoint.specs.Refusals.{IsCheckpointRefusal};
ghost use Rattle.checkpoint.specs.States.{StateView, IsState};
ghost use Rattle.checkpoint.specs.Steps.{Gives};
ghost use Rattle.checkpoint.specs.Texts.{IsTextOf};

use crate::body::{Body, written};
use crate::error::CheckpointError;
use crate::residues::{check_counts, check_residues, joined, shown_count};
use crate::state::State;
use problem::Problem;
use problem_toml::ProblemError;
use residue::{Bytes, Residues};
use std::alloc::Global;

const LONGEST: usize = 1_052_672;

/// The problem of a source.
fn problem(alloc: Global, source: &[u8]) -> Result<Problem, CheckpointError>
    ensures { Gives problems.view result (problem_or_refusal (reading source.now)) }
{
    match problem_toml::read(alloc, source) {
        Ok(problem) => Ok(problem),
        Err(ProblemError::NoMemory) => Err(CheckpointError::NoMemory),
        Err(why) => Err(CheckpointError::ProblemRefused { why }),
    }
}

/// The state that a checkpoint writes.
#[tactic(auto, unfolding(crate::specs::Readers::state_of))]
fn state(alloc: Global, body: Body) -> Result<State, CheckpointError>
    ensures value { Gives (λ state. state) result (state_of (contents_of body.entry)) }
    ensures is_state { IfOk result IsState }
{
    let problem = problem(alloc, body.source)?;
    let count = problem.shape.count();
    if body.next > count {
        return Err(CheckpointError::NextTooLarge {
            next: body.next,
            count,
        });
    }
    let wanted = problem.integrals.len();
    if body.rows.len() != wanted {
        return Err(CheckpointError::LineCount {
            found: shown_count(body.rows.len()),
            wanted: wanted as u32,
        });
    }
    check_counts(body.rows.as_slice(), problem.moduli.len() as u32)?;
    let residues = joined(alloc, body.rows.as_slice())?;
    check_residues(&problem.moduli, residues.as_slice())?;
    let source = Vec::from_slice(alloc, body.source)?;
    Ok(State::new(
        Bytes::of(source),
        problem,
        body.next,
        Residues::of(residues),
    ))
}

#[tactic(auto, unfolding(crate::specs::Readers::short_reading))]
fn read_short(alloc: Global, text: &[u8]) -> Result<State, CheckpointError>
    ensures value { Gives (λ state. state) result (short_reading text.now) }
    ensures is_state { IfOk result IsState }
{
    let body = written(alloc, text)?;
    state(alloc, body)
}

#[tactic(auto, unfolding(crate::specs::Readers::checkpoint_reading))]
fn read_any_length(alloc: Global, text: &[u8]) -> Result<State, CheckpointError>
    ensures value { Gives (λ state. state) result (checkpoint_reading text.now) }
    ensures is_state { IfOk result IsState }
{
    if text.len() > LONGEST {
        return Err(CheckpointError::TooLong);
    }
    read_short(alloc, text)
}

/// Reads a checkpoint, of version 1 or 2.
///
/// # Errors
/// The first refusal whose condition holds, in their order: [`CheckpointError`] says what each refuses. Want of memory
/// is [`CheckpointError::NoMemory`] and says nothing of the text.
pub fn read(alloc: Global, text: &[u8]) -> Result<State, CheckpointError>
    // What is read is a state with this text, and what is refused is refused for its first cause.
    ensures is_state { IfOk result IsState }
    ensures state { IfOk result (λ state. IsTextOf state text.now) }
    ensures refusal { IfErr result (λ error. error ≢ CheckpointError.NoMemory → IsCheckpointRefusal text.now error) }
    // A text of a state is read as that state, and a text with a refusal is refused so, unless memory runs out.
    ensures only_state { (s : StateView) → IsState s → IsTextOf s text.now → Gives (λ state. state) result (Ok s) }
    ensures only_refusal { (error : CheckpointError) → IsCheckpointRefusal text.now error →
        Gives (λ state. state) result (Err error) }
{
    read_any_length(alloc, text)
}
