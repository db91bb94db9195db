//! The last line, which keeps the SHA-256 digest of all before it.

ghost use Rattle.std.specs.Prelude.{◌≡◌, ◌++◌, option_map, OnOk};
ghost use Rattle.checkpoint.specs.Readers.{digest_of, unsealed_at};
ghost use Rattle.checkpoint.specs.Texts.{seal};
ghost use Rattle.sha2.specs.Sha256.{sha256};

use crate::words::{after_word, before_word};
use residue::NoMemory;
use sha2::{Digest, Sha256};
use std::alloc::Global;

/// The length of the last line in bytes.
const SEAL_LENGTH: usize = 72;

/// The digest of a body.
pub fn digest(body: &[u8]) -> [u8; 32]
    ensures { result ≡ sha256 body.now }
{
    Sha256::digest(body)
}

/// The bytes that 64 lower case hexadecimal digits write.
#[tactic(auto, unfolding(crate::specs::Readers::digest_of))]
fn written_digest(digits: &[u8]) -> Option<[u8; 32]>
    ensures { result ≡ digest_of digits.now }
{
    let mut bytes = [0; 32];
    hex::decode_to_slice(digits, &mut bytes).ok()?;
    let mut lower_case = [0; 64];
    hex::encode_to_slice(bytes, &mut lower_case).ok()?;
    if lower_case.as_slice() == digits {
        Some(bytes)
    } else {
        None
    }
}

/// All of a text but its last line, and the digest that this line keeps.
#[tactic(auto, unfolding(crate::specs::Readers::unsealed_at))]
pub fn unsealed(text: &[u8]) -> Option<(&[u8], [u8; 32])>
    ensures { option_map (λ x. (x.0.now, x.1)) result ≡ unsealed_at text.now }
{
    let (body, line) = text.split_at(text.len().saturating_sub(SEAL_LENGTH));
    let rest = after_word(line, b"sha256 ")?;
    let kept = written_digest(before_word(rest, b"\n")?)?;
    Some((body, kept))
}

/// Appends the last line.
#[tactic(auto, using(std::proofs::Common::append_assoc))]
pub fn append_seal(alloc: Global, text: &mut Vec<u8>) -> Result<(), NoMemory>
    ensures { OnOk result (text.new.items ≡ text.old.items ++ seal (sha256 text.old.items)) }
{
    let digits = hex::encode(alloc, digest(text.as_slice()))?;
    text.extend_from_slice(b"sha256 ")?;
    text.extend_from_slice(digits.as_bytes())?;
    text.extend_from_slice(b"\n")?;
    Ok(())
}
