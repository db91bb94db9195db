//! The line that says why a text is refused.

ghost use Rattle.std.specs.Prelude.{◌≡◌, ◌++◌, codes, decimal, map, IfOk, OnOk, OnErr};
ghost use Rattle.std.specs.Fmt.{signed_decimal};
ghost use Rattle.problem_toml.specs.Keys.{key_of};
ghost use Rattle.problem_toml.specs.Refusals.{place_text, modulus_text, shown_byte, shown_key, refusal_of};

use crate::error::ProblemError;
use crate::name::Name;
use crate::place::Place;
use residue::{ModulusError, NoMemory};
use std::alloc::Global;

fn append_number(line: &mut Vec<u8>, number: u64) -> Result<(), NoMemory>
    ensures { OnOk result (line.new.items ≡ line.old.items ++ decimal number) }
{
    line.extend_from_slice(itoa::Buffer::new().format(number).as_bytes())?;
    Ok(())
}

// Appends a prefix, a number, a space and a number.
#[tactic(auto, using(std::proofs::Common::append_assoc))]
fn append_two(line: &mut Vec<u8>, front: &[u8], first: u64, second: u64) -> Result<(), NoMemory>
    ensures { OnOk result (line.new.items ≡ line.old.items ++ (front.now ++ decimal first ++ codes " " ++ decimal second)) }
{
    line.extend_from_slice(front)?;
    append_number(line, first)?;
    line.extend_from_slice(b" ")?;
    append_number(line, second)
}

#[tactic(auto, using(std::proofs::Common::append_assoc))]
fn append_place(line: &mut Vec<u8>, place: Place) -> Result<(), NoMemory>
    ensures { OnOk result (line.new.items ≡ line.old.items ++ place_text place) }
{
    match place {
        Place::Top => line.extend_from_slice(b"top")?,
        Place::Integral { integral } => {
            line.extend_from_slice(b"integral ")?;
            append_number(line, integral as u64)?;
        }
        Place::Term { term } => {
            line.extend_from_slice(b"term ")?;
            append_number(line, term as u64)?;
        }
        Place::Class { term, class } => append_two(line, b"class ", term as u64, class as u64)?,
    }
    Ok(())
}

// Appends a prefix, a place of the text, a space and a key.
#[tactic(auto, using(std::proofs::Common::append_assoc))]
fn append_named(line: &mut Vec<u8>, front: &[u8], place: Place, name: Name) -> Result<(), NoMemory>
    ensures { OnOk result (line.new.items ≡ line.old.items ++ (front.now ++ place_text place ++ codes " " ++ key_of name)) }
{
    line.extend_from_slice(front)?;
    append_place(line, place)?;
    line.extend_from_slice(b" ")?;
    line.extend_from_slice(name.key().as_bytes())?;
    Ok(())
}

fn shown(byte: u8) -> u8
    ensures { result ≡ shown_byte byte }
{
    if 32 <= byte && byte <= 126 {
        byte
    } else {
        b'?'
    }
}

fn append_shown(line: &mut Vec<u8>, bytes: &[u8]) -> Result<(), NoMemory>
    ensures { OnOk result (line.new.items ≡ line.old.items ++ map shown_byte bytes.now) }
{
    for byte in bytes {
        line.push(shown(*byte))?;
    }
    Ok(())
}

// The first 40 bytes of a key.
fn append_key(line: &mut Vec<u8>, key: &[u8]) -> Result<(), NoMemory>
    ensures { OnOk result (line.new.items ≡ line.old.items ++ shown_key key.now) }
{
    let length = key.len().min(40);
    append_shown(line, &key[..length])
}

#[tactic(auto, using(std::proofs::Common::append_assoc))]
fn append_unknown(line: &mut Vec<u8>, place: Place, key: &[u8]) -> Result<(), NoMemory>
    ensures { OnOk result (line.new.items ≡ line.old.items ++ (codes "4 UnknownKey " ++ place_text place ++ codes " " ++ shown_key key.now)) }
{
    line.extend_from_slice(b"4 UnknownKey ")?;
    append_place(line, place)?;
    line.extend_from_slice(b" ")?;
    append_key(line, key)
}

#[tactic(auto, using(std::proofs::Common::append_assoc))]
fn append_version(line: &mut Vec<u8>, version: i64) -> Result<(), NoMemory>
    ensures { OnOk result (line.new.items ≡ line.old.items ++ (codes "6 BadVersion " ++ signed_decimal version)) }
{
    line.extend_from_slice(b"6 BadVersion ")?;
    line.extend_from_slice(itoa::Buffer::new().format(version).as_bytes())?;
    Ok(())
}

fn modulus_word(why: ModulusError) -> &'static [u8]
    ensures { result.now ≡ modulus_text why }
{
    match why {
        ModulusError::Even => b"Even",
        ModulusError::TooSmall => b"TooSmall",
        ModulusError::TooLarge => b"TooLarge",
    }
}

#[tactic(auto, using(std::proofs::Common::append_assoc))]
fn append_modulus(line: &mut Vec<u8>, index: u32, why: ModulusError) -> Result<(), NoMemory>
    ensures { OnOk result (line.new.items ≡ line.old.items ++ (codes "9 ModulusRefused " ++ decimal index ++ codes " " ++ modulus_text why)) }
{
    line.extend_from_slice(b"9 ModulusRefused ")?;
    append_number(line, index as u64)?;
    line.extend_from_slice(b" ")?;
    line.extend_from_slice(modulus_word(why))?;
    Ok(())
}

#[tactic(auto, using(std::proofs::Common::append_assoc))]
fn append_degree(line: &mut Vec<u8>, term: u32, degree: u64, dimension: u64) -> Result<(), NoMemory>
    ensures { OnOk result (line.new.items ≡ line.old.items ++ (codes "14 WrongDegree " ++ decimal term ++ codes " " ++ decimal degree ++ codes " " ++ decimal dimension)) }
{
    append_two(line, b"14 WrongDegree ", term as u64, degree)?;
    line.extend_from_slice(b" ")?;
    append_number(line, dimension)
}

fn append_bytes(line: &mut Vec<u8>, bytes: &[u8]) -> Result<(), NoMemory>
    ensures { OnOk result (line.new.items ≡ line.old.items ++ bytes.now) }
{
    line.extend_from_slice(bytes)?;
    Ok(())
}

/// Appends the number of a refusal, its name and its details, joined by single spaces, as `7 OutOfLimits top rank`.
/// Want of memory is no refusal and appends nothing.
///
/// Indices are counted from 0. Of an unknown key the first 40 bytes are shown, and each byte outside 32 to 126 as `?`.
///
/// # Errors
/// `NoMemory` if the allocator refuses memory. Then the line is as before: the whole text is made before a byte of it is
/// appended.
pub fn append_refusal(
    alloc: Global,
    line: &mut Vec<u8>,
    error: &ProblemError,
) -> Result<(), NoMemory>
    ensures text { OnOk result (line.new.items ≡ line.old.items ++ refusal_of error.now) }
    ensures kept { OnErr result (line.new.items ≡ line.old.items) }
{
    let mut text = Vec::new(alloc);
    append_details(&mut text, error)?;
    line.extend_from_slice(text.as_slice())?;
    Ok(())
}

/// Appends what [`append_refusal`] does. If memory is refused, a prefix of it may have been appended.
fn append_details(line: &mut Vec<u8>, error: &ProblemError) -> Result<(), NoMemory>
    ensures { OnOk result (line.new.items ≡ line.old.items ++ refusal_of error.now) }
{
    match error {
        ProblemError::NoMemory => Ok(()),
        ProblemError::TooLong => append_bytes(line, b"1 TooLong"),
        ProblemError::NotToml => append_bytes(line, b"2 NotToml"),
        ProblemError::MissingKey { place, name } => {
            append_named(line, b"3 MissingKey ", *place, *name)
        }
        ProblemError::UnknownKey { place, key } => append_unknown(line, *place, key.as_slice()),
        ProblemError::WrongType { place, name } => {
            append_named(line, b"5 WrongType ", *place, *name)
        }
        ProblemError::BadVersion { version } => append_version(line, *version),
        ProblemError::OutOfLimits { place, name } => {
            append_named(line, b"7 OutOfLimits ", *place, *name)
        }
        ProblemError::WeightCount { found, wanted } => {
            append_two(line, b"8 WeightCount ", *found as u64, *wanted as u64)
        }
        ProblemError::ModulusRefused { index, why } => append_modulus(line, *index, *why),
        ProblemError::NotCoprime { first, second } => {
            append_two(line, b"10 NotCoprime ", *first as u64, *second as u64)
        }
        ProblemError::ProductTooLarge => append_bytes(line, b"11 ProductTooLarge"),
        ProblemError::BoundsTooWide => append_bytes(line, b"12 BoundsTooWide"),
        ProblemError::UnknownKind { term, class } => {
            append_two(line, b"13 UnknownKind ", *term as u64, *class as u64)
        }
        ProblemError::WrongDegree {
            term,
            degree,
            dimension,
        } => append_degree(line, *term, *degree, *dimension),
        ProblemError::TooManyTrees => append_bytes(line, b"15 TooManyTrees"),
    }
}

/// The line `problem refused` with the number of the refusal, its name and its details, without a line feed.
///
/// # Errors
/// `NoMemory` if the allocator refuses memory.
pub fn refusal_line(alloc: Global, error: &ProblemError) -> Result<Vec<u8>, NoMemory>
    ensures { IfOk result (λ line. line.items ≡ codes "problem refused " ++ refusal_of error.now) }
{
    let mut line = Vec::new(alloc);
    append_bytes(&mut line, b"problem refused ")?;
    append_details(&mut line, error)?;
    Ok(line)
}
