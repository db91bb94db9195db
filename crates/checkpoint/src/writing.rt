//! The text of a state.

ghost use Rattle.std.specs.Prelude.{◌≡◌, IfOk};
ghost use Rattle.checkpoint.specs.Texts.{body_of, contents_in, text_in};

use crate::decimal::append_number_line;
use crate::rows::append_rows;
use crate::seal::append_seal;
use crate::sources::append_source;
use crate::state::State;
use residue::NoMemory;
use std::alloc::Global;

/// The body of the text of a state in version 2.
#[tactic(auto, using(std::proofs::Common::append_assoc))]
fn body(alloc: Global, state: &State) -> Result<Vec<u8>, NoMemory>
    ensures { IfOk result (λ text. text.items ≡ body_of (contents_in 2 state.now)) }
{
    let mut text = Vec::new(alloc);
    append_number_line(&mut text, b"locus-checkpoint ", 2)?;
    append_source(&mut text, state.source())?;
    append_number_line(&mut text, b"next ", state.next())?;
    let problem = state.problem();
    append_rows(
        &mut text,
        problem.integrals.len(),
        problem.moduli.len(),
        state.residues(),
    )?;
    Ok(text)
}

/// The text of a state: its one text in version 2.
///
/// # Errors
/// `NoMemory` if the allocator refuses memory.
pub fn write(alloc: Global, state: &State) -> Result<Vec<u8>, NoMemory>
    ensures { IfOk result (λ text. text.items ≡ text_in 2 state.now) }
{
    let mut text = body(alloc, state)?;
    append_seal(alloc, &mut text)?;
    Ok(text)
}
