//! What the text of a shard writes, from its first line to its last.

ghost use Rattle.std.specs.Prelude.{◌≡◌, option_map};
ghost use Rattle.shard_merge.specs.Readers.{range_at, contents_at, sound_at, written_at};
ghost use Rattle.shard_merge.specs.Bodies.{contents_of};
ghost use Rattle.shard_merge.specs.Steps.{Gives};

use crate::shard_error::ShardError;
use checkpoint::decimal::{decimal, number_line};
use checkpoint::rows::rows;
use checkpoint::seal::{digest, unsealed};
use checkpoint::sources::source;
use checkpoint::words::after_word;
use std::alloc::Global;

/// What the text of a shard writes: the source, the range, and the residues of each line.
#[derive(Debug, Drop)]
pub(crate) struct Body<'a> {
    pub source: &'a [u8],
    pub first: u64,
    pub end: u64,
    pub rows: Vec<Vec<u64>>,
}

/// The first number and the end of a range, and what follows its line.
#[tactic(auto, unfolding(crate::specs::Readers::range_at))]
fn range(text: &[u8]) -> Option<((u64, u64), &[u8])>
    ensures { option_map (λ x. ((x.0.0, x.0.1), x.1.now)) result ≡ range_at text.now }
{
    let (first, rest) = decimal(after_word(text, b"range ")?)?;
    let (end, rest) = number_line(rest, b" ")?;
    Some(((first, end), rest))
}

/// The lines of a text between its first and its last.
#[tactic(auto, unfolding(crate::specs::Readers::contents_at))]
fn lines(alloc: Global, text: &[u8]) -> Result<Body, ShardError>
    ensures { Gives (λ body. contents_of body) result (contents_at text.now) }
{
    let (source, rest) = source(text).ok_or(ShardError::BadBody)?;
    let ((first, end), rest) = range(rest).ok_or(ShardError::BadBody)?;
    let rows = rows(alloc, rest)?;
    if rows.is_empty() {
        return Err(ShardError::BadBody);
    }
    Ok(Body {
        source,
        first,
        end,
        rows,
    })
}

/// The lines of a text after its first, once its digest and its version are right.
#[tactic(auto, unfolding(crate::specs::Readers::sound_at))]
fn sound_body<'a>(
    alloc: Global,
    kept: [u8; 32],
    text: &[u8],
    version: u64,
    rest: &'a [u8],
) -> Result<Body<'a>, ShardError>
    ensures { Gives (λ body. contents_of body) result (sound_at kept text.now version rest.now) }
{
    let computed = digest(text);
    if kept != computed {
        return Err(ShardError::Damaged { kept, computed });
    }
    if version != 1 {
        return Err(ShardError::BadVersion { version });
    }
    lines(alloc, rest)
}

/// What a text writes.
#[tactic(auto, unfolding(crate::specs::Readers::written_at))]
pub(crate) fn written(alloc: Global, text: &[u8]) -> Result<Body, ShardError>
    ensures { Gives (λ body. contents_of body) result (written_at text.now) }
{
    let (text, kept) = unsealed(text).ok_or(ShardError::NotShard)?;
    let (version, rest) = number_line(text, b"locus-shard ").ok_or(ShardError::NotShard)?;
    sound_body(alloc, kept, text, version, rest)
}
