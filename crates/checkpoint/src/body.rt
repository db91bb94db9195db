//! What a text writes, from its first line to its last.

ghost use Rattle.std.specs.Prelude.{◌≡◌, ◌||◌, map};
ghost use Rattle.checkpoint.specs.Readers.{contents_at, sound_at, written_at};
ghost use Rattle.checkpoint.specs.Bodies.{contents_of};
ghost use Rattle.checkpoint.specs.Steps.{Gives};

use crate::decimal::number_line;
use crate::error::CheckpointError;
use crate::rows::rows;
use crate::seal::{digest, unsealed};
use crate::sources::source;
use std::alloc::Global;

/// What a checkpoint writes: its version, the source, the number of the next tree, and the residues of each line.
#[derive(Debug, Drop)]
pub(crate) struct Body<'a> {
    pub version: u64,
    pub source: &'a [u8],
    pub next: u64,
    pub rows: Vec<Vec<u64>>,
}

/// The lines of a body after its first.
#[tactic(auto, unfolding(crate::specs::Readers::contents_at))]
fn body_lines(alloc: Global, version: u64, text: &[u8]) -> Result<Body, CheckpointError>
    ensures { Gives (λ body. contents_of body) result (contents_at version text.now) }
{
    let (source, rest) = source(text).ok_or(CheckpointError::BadBody)?;
    let (next, rest) = number_line(rest, b"next ").ok_or(CheckpointError::BadBody)?;
    let rows = rows(alloc, rest)?;
    if rows.is_empty() || (version == 1 && rows.len() != 1) {
        return Err(CheckpointError::BadBody);
    }
    Ok(Body {
        version,
        source,
        next,
        rows,
    })
}

/// The body after its first line, once its digest and its version are right.
#[tactic(auto, unfolding(crate::specs::Readers::sound_at))]
fn sound_body<'a>(
    alloc: Global,
    kept: [u8; 32],
    text: &[u8],
    version: u64,
    rest: &'a [u8],
) -> Result<Body<'a>, CheckpointError>
    ensures { Gives (λ body. contents_of body) result (sound_at kept text.now version rest.now) }
{
    let computed = digest(text);
    if kept != computed {
        return Err(CheckpointError::Damaged { kept, computed });
    }
    if version != 1 && version != 2 {
        return Err(CheckpointError::BadVersion { version });
    }
    body_lines(alloc, version, rest)
}

/// What a text writes.
#[tactic(auto, unfolding(crate::specs::Readers::written_at))]
pub(crate) fn written(alloc: Global, text: &[u8]) -> Result<Body, CheckpointError>
    ensures { Gives (λ body. contents_of body) result (written_at text.now) }
{
    let (text, kept) = unsealed(text).ok_or(CheckpointError::NotCheckpoint)?;
    let (version, rest) = number_line(text, b"locus-checkpoint ").ok_or(
        CheckpointError::NotCheckpoint,
    )?;
    sound_body(alloc, kept, text, version, rest)
}
