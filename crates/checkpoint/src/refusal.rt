//! The line that says why a text is no checkpoint.

ghost use Rattle.std.specs.Prelude.{◌≡◌, ◌++◌, codes, decimal, IfOk, OnOk, OnErr};
ghost use Rattle.hex.specs.Hex.{encode_lower};
ghost use Rattle.problem_toml.specs.Refusals as problems;
ghost use Rattle.checkpoint.specs.Refusals.{refusal_of};

use crate::decimal::append_decimal;
use crate::error::CheckpointError;
use residue::NoMemory;
use std::alloc::Global;

fn append_bytes(line: &mut Vec<u8>, bytes: &[u8]) -> Result<(), NoMemory>
    ensures { OnOk result (line.new.items ≡ line.old.items ++ bytes.now) }
{
    line.extend_from_slice(bytes)?;
    Ok(())
}

// A prefix and a number.
#[tactic(auto, using(std::proofs::Common::append_assoc))]
fn append_one(line: &mut Vec<u8>, prefix: &[u8], number: u64) -> Result<(), NoMemory>
    ensures { OnOk result (line.new.items ≡ line.old.items ++ (prefix.now ++ decimal number)) }
{
    line.extend_from_slice(prefix)?;
    append_decimal(line, number)
}

// A prefix, a number, a space and a number.
#[tactic(auto, using(std::proofs::Common::append_assoc))]
fn append_two(line: &mut Vec<u8>, prefix: &[u8], first: u64, second: u64) -> Result<(), NoMemory>
    ensures { OnOk result (line.new.items ≡ line.old.items ++ (prefix.now ++ decimal first ++ codes " " ++ decimal second)) }
{
    append_one(line, prefix, first)?;
    line.extend_from_slice(b" ")?;
    append_decimal(line, second)
}

// Both digests, as lower case hexadecimal digits.
#[tactic(auto, using(std::proofs::Common::append_assoc))]
fn append_damaged(
    alloc: Global,
    line: &mut Vec<u8>,
    kept: &[u8; 32],
    computed: &[u8; 32],
) -> Result<(), NoMemory>
    ensures { OnOk result (line.new.items ≡ line.old.items ++ (codes "3 Damaged " ++ encode_lower kept.now ++ codes " " ++ encode_lower computed.now)) }
{
    let kept = hex::encode(alloc, *kept)?;
    let computed = hex::encode(alloc, *computed)?;
    line.extend_from_slice(b"3 Damaged ")?;
    line.extend_from_slice(kept.as_bytes())?;
    line.extend_from_slice(b" ")?;
    line.extend_from_slice(computed.as_bytes())?;
    Ok(())
}

#[tactic(auto, using(std::proofs::Common::append_assoc))]
fn append_problem(
    alloc: Global,
    line: &mut Vec<u8>,
    why: &problem_toml::ProblemError,
) -> Result<(), NoMemory>
    ensures { OnOk result (line.new.items ≡ line.old.items ++ (codes "6 ProblemRefused " ++ problems.refusal_of why.now)) }
{
    line.extend_from_slice(b"6 ProblemRefused ")?;
    problem_toml::append_refusal(alloc, line, why)
}

fn append_whole(alloc: Global, line: &mut Vec<u8>, error: &CheckpointError) -> Result<(), NoMemory>
    ensures { OnOk result (line.new.items ≡ line.old.items ++ refusal_of error.now) }
{
    match error {
        CheckpointError::NoMemory => Ok(()),
        CheckpointError::TooLong => append_bytes(line, b"1 TooLong"),
        CheckpointError::NotCheckpoint => append_bytes(line, b"2 NotCheckpoint"),
        CheckpointError::Damaged { kept, computed } => append_damaged(alloc, line, kept, computed),
        CheckpointError::BadVersion { version } => append_one(line, b"4 BadVersion ", *version),
        CheckpointError::BadBody => append_bytes(line, b"5 BadBody"),
        CheckpointError::ProblemRefused { why } => append_problem(alloc, line, why),
        CheckpointError::NextTooLarge { next, count } => {
            append_two(line, b"7 NextTooLarge ", *next, *count)
        }
        CheckpointError::LineCount { found, wanted } => {
            append_two(line, b"10 LineCount ", *found as u64, *wanted as u64)
        }
        CheckpointError::ResidueCount { found, wanted } => {
            append_two(line, b"8 ResidueCount ", *found as u64, *wanted as u64)
        }
        CheckpointError::ResidueRefused { place } => {
            append_one(line, b"9 ResidueRefused ", *place as u64)
        }
    }
}

/// Appends the number of a refusal, its name and its details, joined by single spaces, as `7 NextTooLarge 9 8`. Digests
/// are 64 lower case hexadecimal digits. Want of memory is no refusal and appends nothing.
///
/// # Errors
/// `NoMemory` if the allocator refuses memory. Then the line is as before.
pub fn append_refusal(
    alloc: Global,
    line: &mut Vec<u8>,
    error: &CheckpointError,
) -> Result<(), NoMemory>
    ensures ok { OnOk result (line.new.items ≡ line.old.items ++ refusal_of error.now) }
    ensures err { OnErr result (line.new.items ≡ line.old.items) }
{
    let refusal = whole(alloc, error)?;
    line.extend_from_slice(refusal.as_slice())?;
    Ok(())
}

fn whole(alloc: Global, error: &CheckpointError) -> Result<Vec<u8>, NoMemory>
    ensures { IfOk result (λ refusal. refusal.items ≡ refusal_of error.now) }
{
    let mut refusal = Vec::new(alloc);
    append_whole(alloc, &mut refusal, error)?;
    Ok(refusal)
}

/// The line `checkpoint refused` with the number of the refusal, its name and its details, without a line feed.
///
/// # Errors
/// `NoMemory` if the allocator refuses memory.
pub fn refusal_line(alloc: Global, error: &CheckpointError) -> Result<Vec<u8>, NoMemory>
    ensures { IfOk result (λ line. line.items ≡ codes "checkpoint refused " ++ refusal_of error.now) }
{
    let mut line = Vec::new(alloc);
    append_bytes(&mut line, b"checkpoint refused ")?;
    append_whole(alloc, &mut line, error)?;
    Ok(line)
}
