//! The text of a shard.

ghost use Rattle.std.specs.Prelude.{◌≡◌, ◌++◌, IfOk, OnOk};
ghost use Rattle.shard_merge.specs.Texts.{range_line, body_of, contents_in, text_in};

use crate::shard::Shard;
use checkpoint::decimal::{append_decimal, append_number_line};
use checkpoint::rows::append_rows;
use checkpoint::seal::append_seal;
use checkpoint::sources::append_source;
use residue::NoMemory;
use std::alloc::Global;

/// Appends the line of a range.
#[tactic(auto, using(std::proofs::Common::append_assoc))]
fn append_range(text: &mut Vec<u8>, first: u64, end: u64) -> Result<(), NoMemory>
    ensures { OnOk result (text.new.items ≡ text.old.items ++ range_line first end) }
{
    text.extend_from_slice(b"range ")?;
    append_decimal(text, first)?;
    append_number_line(text, b" ", end)
}

/// The text of a shard without its last line.
#[tactic(auto, using(std::proofs::Common::append_assoc))]
fn body(alloc: Global, shard: &Shard) -> Result<Vec<u8>, NoMemory>
    ensures { IfOk result (λ text. text.items ≡ body_of (contents_in shard.now)) }
{
    let mut text = Vec::new(alloc);
    append_number_line(&mut text, b"locus-shard ", 1)?;
    append_source(&mut text, shard.source())?;
    append_range(&mut text, shard.first(), shard.end())?;
    let problem = shard.problem();
    append_rows(
        &mut text,
        problem.integrals.len(),
        problem.moduli.len(),
        shard.residues(),
    )?;
    Ok(text)
}

/// The text of a shard: its one text.
///
/// # Errors
/// `NoMemory` if the allocator refuses memory.
pub fn write(alloc: Global, shard: &Shard) -> Result<Vec<u8>, NoMemory>
    ensures { IfOk result (λ text. text.items ≡ text_in shard.now) }
{
    let mut text = body(alloc, shard)?;
    append_seal(alloc, &mut text)?;
    Ok(text)
}
