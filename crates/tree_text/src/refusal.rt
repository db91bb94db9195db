//! The text of a refusal.

ghost use Rattle.std.specs.Prelude.{◌≡◌, ◌++◌, codes, decimal, IfOk, OnOk};
ghost use Rattle.tree_text.specs.Refusals.{refusal_of};

use crate::error::TreeTextError;
use lists::NoMemory;
use std::alloc::Global;

/// The line `tree refused` with the number of the refusal, its name and its details, without a line feed, as
/// `tree refused 1 Syntax 12`.
///
/// # Errors
/// `NoMemory` if the allocator refuses memory.
pub fn refusal_line(alloc: Global, error: &TreeTextError) -> Result<Vec<u8>, NoMemory>
    ensures { IfOk result (λ line. line.items ≡ codes "tree refused " ++ refusal_of error.now) }
{
    let mut line = Vec::new(alloc);
    line.extend_from_slice(b"tree refused ")?;
    append_refusal(&mut line, error)?;
    Ok(line)
}

fn append_refusal(line: &mut Vec<u8>, error: &TreeTextError) -> Result<(), NoMemory>
    ensures { OnOk result (line.new.items ≡ line.old.items ++ refusal_of error.now) }
{
    match error {
        TreeTextError::Syntax { place } => append_syntax(line, *place),
        TreeTextError::NotOfShape => {
            line.extend_from_slice(b"2 NotOfShape")?;
            Ok(())
        }
    }
}

#[tactic(auto, using(std::proofs::Common::append_assoc))]
fn append_syntax(line: &mut Vec<u8>, place: u32) -> Result<(), NoMemory>
    ensures { OnOk result (line.new.items ≡ line.old.items ++ (codes "1 Syntax " ++ decimal place)) }
{
    line.extend_from_slice(b"1 Syntax ")?;
    line.extend_from_slice(itoa::Buffer::new().format(place).as_bytes())?;
    Ok(())
}
