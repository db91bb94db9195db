//! Rows of residues against the moduli of a problem.

ghost use Rattle.std.specs.Prelude.{◌≡◌, ◌≤◌, ◌*◌, length, replicate, IfOk, OnOk};
ghost use Rattle.std.specs.List.{concat};
ghost use Rattle.localisation.specs.Agreement.{modulus_at};
ghost use Rattle.checkpoint.specs.Bodies.{numbers_of};
ghost use Rattle.checkpoint.specs.Readers.{shown_count, counts_fit, residues_fit};
ghost use Rattle.checkpoint.specs.States.{AreBelow};
ghost use Rattle.checkpoint.specs.Steps.{GivesSurely};

use crate::error::CheckpointError;
use residue::{Moduli, NoMemory};
use std::alloc::Global;

/// A count as 32 bits hold it.
pub fn shown_count(count: usize) -> u32
    ensures { result ≡ shown_count count }
{
    count.min(u32::MAX as usize) as u32
}

/// Each row has one residue for each modulus.
#[tactic(auto, using(std::proofs::lemmas::List::drop_more))]
pub fn check_counts(rows: &[Vec<u64>], wanted: u32) -> Result<(), CheckpointError>
    ensures value { GivesSurely (λ _. tt) result (counts_fit wanted (numbers_of rows.now)) }
    ensures joined { OnOk result (length (concat (numbers_of rows.now)) ≡ length rows.now * wanted) }
{
    for row in rows {
        if row.len() != wanted as usize {
            return Err(CheckpointError::ResidueCount {
                found: shown_count(row.len()),
                wanted,
            });
        }
    }
    Ok(())
}

/// The residues of the rows, one row after the other.
#[tactic(auto, using(std::proofs::lemmas::List::drop_more, std::proofs::Common::append_assoc))]
pub fn joined(alloc: Global, rows: &[Vec<u64>]) -> Result<Vec<u64>, NoMemory>
    ensures { IfOk result (λ residues. residues.items ≡ concat (numbers_of rows.now)) }
{
    let mut residues = Vec::new(alloc);
    for row in rows {
        residues.extend_from_slice(row.as_slice())?;
    }
    Ok(residues)
}

/// Each residue is below its modulus.
#[tactic(auto, using(std::proofs::lemmas::List::drop_more))]
pub fn check_residues(moduli: &Moduli, residues: &[u64]) -> Result<(), CheckpointError>
    requires { 1 ≤ length moduli.now }
    ensures value { GivesSurely (λ _. tt) result (residues_fit moduli.now 0 residues.now) }
    ensures below { OnOk result (AreBelow moduli.now residues.now) }
{
    for (place, residue) in residues.iter().enumerate() {
        if *residue >= modulus_at(moduli, place) {
            return Err(CheckpointError::ResidueRefused {
                place: shown_count(place),
            });
        }
    }
    Ok(())
}

/// The modulus of the residue with an index. Residues are listed integral by integral, and within one integral modulus
/// by modulus.
#[tactic(auto, using(std::proofs::lemmas::Option::get_or_from_slice_get))]
pub fn modulus_at(moduli: &Moduli, place: usize) -> u64
    requires { 1 ≤ length moduli.now }
    ensures { result ≡ modulus_at moduli.now place }
{
    moduli.get(place % moduli.len()).get()
}

/// So many residues 0.
pub fn zeros(alloc: Global, count: usize) -> Result<Vec<u64>, NoMemory>
    ensures { IfOk result (λ residues. residues.items ≡ replicate count 0) }
{
    Ok(vec![in alloc; 0; count]?)
}
