//! The lines of residues.

ghost use Rattle.std.specs.Prelude.{◌≡◌, ◌<◌, ◌≤◌, ◌++◌, ◌*◌, [], length, IfOk, OnOk};
ghost use Rattle.std.specs.List.{flat_map};
ghost use Rattle.checkpoint.specs.Bodies.{numbers_of};
ghost use Rattle.checkpoint.specs.Readers.{starts_with_space, residue_at, residues_at, row_at, rows_at};
ghost use Rattle.checkpoint.specs.Steps.{Gives, GivesSurely};
ghost use Rattle.checkpoint.specs.Texts.{residue_text, residues_line, rows_of};

use crate::decimal::{append_decimal, decimal};
use crate::error::CheckpointError;
use crate::words::after_word;
use residue::NoMemory;
use std::alloc::Global;

fn starts_with_space(text: &[u8]) -> bool
    ensures { result ≡ starts_with_space text.now }
{
    match text {
        [] => false,
        [byte, ..] => *byte == b' ',
    }
}

/// A residue after one space, and what follows it.
#[tactic(auto, unfolding(crate::specs::Readers::residue_at))]
fn residue(text: &[u8]) -> Result<(u64, &[u8]), CheckpointError>
    ensures value { GivesSurely (λ x. (x.0, x.1.now)) result (residue_at text.now) }
    ensures shorter { IfOk result (λ x. length x.1.now < length text.now) }
{
    let rest = after_word(text, b" ").ok_or(CheckpointError::BadBody)?;
    decimal(rest).ok_or(CheckpointError::BadBody)
}

/// The residues at the start of a text, each after one space, and what follows them.
#[tactic(auto, unfolding(crate::specs::Readers::residues_at))]
fn residues(alloc: Global, text: &[u8]) -> Result<(Vec<u64>, &[u8]), CheckpointError>
    ensures value { Gives (λ x. (x.0.items, x.1.now)) result (residues_at text.now) }
    ensures shorter { IfOk result (λ x. length x.1.now ≤ length text.now) }
{
    let mut residues = Vec::new(alloc);
    let mut rest = text;
    while starts_with_space(rest) {
        let (number, after) = residue(rest)?;
        residues.push(number)?;
        rest = after;
    }
    Ok((residues, rest))
}

/// The residues of the line at the start of a text, and what follows the line.
#[tactic(auto, unfolding(crate::specs::Readers::row_at))]
fn row(alloc: Global, text: &[u8]) -> Result<(Vec<u64>, &[u8]), CheckpointError>
    ensures value { Gives (λ x. (x.0.items, x.1.now)) result (row_at text.now) }
    ensures shorter { IfOk result (λ x. length x.1.now < length text.now) }
{
    let rest = after_word(text, b"residues").ok_or(CheckpointError::BadBody)?;
    let (residues, rest) = residues(alloc, rest)?;
    let rest = after_word(rest, b"\n").ok_or(CheckpointError::BadBody)?;
    if residues.is_empty() {
        return Err(CheckpointError::BadBody);
    }
    Ok((residues, rest))
}

/// The residues of the lines of a text, to its end.
#[tactic(auto, unfolding(crate::specs::Readers::rows_at))]
pub fn rows(alloc: Global, text: &[u8]) -> Result<Vec<Vec<u64>>, CheckpointError>
    ensures { Gives (λ rows. (numbers_of rows.items, [])) result (rows_at text.now) }
{
    let mut rows = Vec::new(alloc);
    let mut rest = text;
    while !rest.is_empty() {
        let (residues, after) = row(alloc, rest)?;
        rows.push(residues)?;
        rest = after;
    }
    Ok(rows)
}

/// Appends a line of residues.
fn append_row(text: &mut Vec<u8>, row: &[u64]) -> Result<(), NoMemory>
    ensures { OnOk result (text.new.items ≡ text.old.items ++ residues_line row.now) }
{
    text.extend_from_slice(b"residues")?;
    append_residues(text, row)?;
    text.extend_from_slice(b"\n")?;
    Ok(())
}

/// Appends residues, each after one space.
#[tactic(auto, using(std::proofs::lemmas::List::drop_more))]
fn append_residues(text: &mut Vec<u8>, residues: &[u64]) -> Result<(), NoMemory>
    ensures { OnOk result (text.new.items ≡ text.old.items ++ flat_map residue_text residues.now) }
{
    for residue in residues {
        text.extend_from_slice(b" ")?;
        append_decimal(text, *residue)?;
    }
    Ok(())
}

/// Appends so many lines of residues, each of as many as there are moduli.
#[tactic(auto, using(crate::proofs::RowLaws::rows_next, crate::proofs::RowLaws::rows_room, std::proofs::Common::append_assoc))]
pub fn append_rows(
    text: &mut Vec<u8>,
    count: usize,
    moduli: usize,
    residues: &[u64],
) -> Result<(), NoMemory>
    requires { length residues.now ≡ count * moduli }
    ensures { OnOk result (text.new.items
        ≡ text.old.items ++ flat_map residues_line (rows_of moduli count residues.now)) }
{
    let mut rest = residues;
    for _ in 0..count {
        let (row, after) = rest.split_at(moduli);
        append_row(text, row)?;
        rest = after;
    }
    Ok(())
}
