//! The source of a problem within a text, with its length before it.

ghost use Rattle.std.specs.Prelude.{◌≡◌, ◌++◌, length, option_map, OnOk};
ghost use Rattle.checkpoint.specs.Readers.{source_at};
ghost use Rattle.checkpoint.specs.Texts.{source_text};

use crate::decimal::{append_number_line, number_line};
use crate::words::after_word;
use residue::NoMemory;

/// A source, whose length stands before it, and what follows its line feed: none unless the text begins with those.
#[tactic(auto, unfolding(crate::specs::Readers::source_at))]
pub fn source(text: &[u8]) -> Option<(&[u8], &[u8])>
    ensures { option_map (λ x. (x.0.now, x.1.now)) result ≡ source_at text.now }
{
    let (length, rest) = number_line(text, b"problem ")?;
    if length > rest.len() as u64 {
        return None;
    }
    let (source, rest) = rest.split_at(length as usize);
    let rest = after_word(rest, b"\n")?;
    Some((source, rest))
}

/// Appends a source with its length before it and a line feed after it.
#[tactic(auto, using(std::proofs::Common::append_assoc))]
pub fn append_source(text: &mut Vec<u8>, source: &[u8]) -> Result<(), NoMemory>
    ensures { OnOk result (text.new.items ≡ text.old.items ++ source_text source.now) }
{
    append_number_line(text, b"problem ", source.len() as u64)?;
    text.extend_from_slice(source)?;
    text.extend_from_slice(b"\n")?;
    Ok(())
}
