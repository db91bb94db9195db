//! Decimals: `0`, or a digit from 1 to 9 and more digits, of a value below 2^64.

ghost use Rattle.std.specs.Prelude.{◌≡◌, ◌<◌, ◌≤◌, ◌+◌, ◌-◌, ◌*◌, ◌^◌, ◌++◌, length, decimal, option_map, nat_lt, Some, None, if◌then◌else◌, IfSome, OnOk};
ghost use Rattle.checkpoint.specs.Readers.{starts_decimal, number_from, decimal_at, number_line_at};
ghost use Rattle.checkpoint.specs.Texts.{number_line};

use crate::words::after_word;
use residue::NoMemory;

/// Whether a decimal stands first: a digit, and no 0 before another digit.
fn starts_decimal(text: &[u8]) -> bool
    ensures { result ≡ starts_decimal text.now }
{
    match text {
        [] => false,
        [byte] => byte.is_ascii_digit(),
        [byte, next, ..] => byte.is_ascii_digit() && !(*byte == b'0' && next.is_ascii_digit()),
    }
}

/// The number that the digits at the start of a text write, and what follows them. There is none from 2^64 on.
#[tactic(auto, using(std::proofs::lemmas::List::drop_more))]
fn number(text: &[u8]) -> Option<(u64, &[u8])>
    ensures { option_map (λ x. (x.0, x.1.now)) result ≡ number_from 0 text.now }
{
    let mut number: u64 = 0;
    for (index, byte) in text.iter().enumerate() {
        if !byte.is_ascii_digit() {
            return Some((number, text.split_at(index).1));
        }
        number = appended(number, *byte)?;
    }
    Some((number, &[]))
}

/// The number with a digit after its own.
fn appended(number: u64, digit: u8) -> Option<u64>
    requires low { 48 ≤ digit }
    requires high { digit ≤ 57 }
    ensures { result ≡ (if nat_lt (number * 10 + (digit - 48)) (2 ^ 64) then Some (number * 10 + (digit - 48)) else None) }
{
    number.checked_mul(10)?.checked_add((digit - b'0') as u64)
}

/// The decimal at the start of a text, and what follows it.
#[tactic(auto, unfolding(crate::specs::Readers::decimal_at))]
pub fn decimal(text: &[u8]) -> Option<(u64, &[u8])>
    ensures value { option_map (λ x. (x.0, x.1.now)) result ≡ decimal_at text.now }
    ensures shorter { IfSome result (λ x. length x.1.now < length text.now) }
{
    if !starts_decimal(text) {
        return None;
    }
    number(text)
}

/// The number of a line that begins with a word, and what follows the line.
#[tactic(auto, unfolding(crate::specs::Readers::number_line_at))]
pub fn number_line<'a>(text: &'a [u8], word: &[u8]) -> Option<(u64, &'a [u8])>
    ensures { option_map (λ x. (x.0, x.1.now)) result ≡ number_line_at word.now text.now }
{
    let (number, rest) = decimal(after_word(text, word)?)?;
    let rest = after_word(rest, b"\n")?;
    Some((number, rest))
}

/// Appends the decimal of a number.
pub fn append_decimal(text: &mut Vec<u8>, number: u64) -> Result<(), NoMemory>
    ensures { OnOk result (text.new.items ≡ text.old.items ++ decimal number) }
{
    text.extend_from_slice(itoa::Buffer::new().format(number).as_bytes())?;
    Ok(())
}

/// Appends a word, a number and a line feed.
#[tactic(auto, using(std::proofs::Common::append_assoc))]
pub fn append_number_line(text: &mut Vec<u8>, word: &[u8], number: u64) -> Result<(), NoMemory>
    ensures { OnOk result (text.new.items ≡ text.old.items ++ number_line word.now number) }
{
    text.extend_from_slice(word)?;
    append_decimal(text, number)?;
    text.extend_from_slice(b"\n")?;
    Ok(())
}
