//! Whether arguments are a use of a command, told without memory.
ghost use Rattle.std.specs.Prelude.{◌≡◌, ◌↔◌, IsTrue, true, map, option_map, string_bytes};
ghost use Rattle.clap.specs.Lexer.{long_of, name_and_value, strip_byte};
ghost use Rattle.command_words.specs.Told.{has_option, is_only, is_option_named, used_from};
ghost use Rattle.command_words.specs.Taken.{AreTaken};
ghost use Rattle.command_words.specs.Usages.{fits, is_plain, is_sound_table, slot_of, usages_of, usage_of};
ghost use Rattle.command_words.specs.Words.{option_fits};

use crate::numbers::number;
use crate::reading::row_named;
use crate::table::{Argument, CommandRow, Limit, Program};

/// What follows a first hyphen.
fn strip_dash(word: &str) -> Option<&str>
    ensures { option_map (λ s. s.now) result ≡ strip_byte 45 word.now }
{
    word.strip_prefix('-')
}

/// What stands before the first `=`, and what stands after it if there is one.
fn split_value(text: &str) -> (&str, Option<&str>)
    ensures { (result.0.now, option_map (λ s. s.now) result.1) ≡ name_and_value text.now }
{
    match text.split_once('=') {
        Some((name, value)) => (name, Some(value)),
        None => (text, None),
    }
}

/// `--name` or `--name=value`, as the name and the value.
fn option_of(word: &str) -> Option<(&str, Option<&str>)>
    ensures { option_map (λ p. (p.0.now, option_map (λ s. s.now) p.1)) result ≡ long_of word.now }
{
    let rest = strip_dash(strip_dash(word)?)?;
    if rest.is_empty() {
        return None;
    }
    Some(split_value(rest))
}

/// Whether the argument is not empty and does not begin with `-`.
fn is_plain(word: &str) -> bool
    ensures { result ≡ is_plain word.now }
{
    match word.as_bytes() {
        [] => false,
        [first, ..] => *first != b'-',
    }
}

/// Whether the value is within the limit.
fn fits(limit: Limit, value: &str) -> bool
    ensures { result ≡ fits limit value.now }
{
    match limit {
        Limit::Text => true,
        Limit::Number(low, high) => match number(value) {
            Some(number) => low <= number && number <= high,
            None => false,
        },
    }
}

/// Whether the option is one of these, and its value within its limit.
#[tactic(auto, using(std::proofs::lemmas::List::drop_more))]
fn option_fits(options: &[Argument<'_>], name: &str, value: &str) -> bool
    ensures { result ≡ option_fits (map slot_of options.now) (name.now, value.now) }
{
    for option in options {
        if option.name == name {
            return fits(option.limit, value);
        }
    }
    false
}

/// Whether the argument is an option of this name.
fn is_option_named(word: &str, name: &str) -> bool
    ensures { result ≡ is_option_named name.now word.now }
{
    match option_of(word) {
        Some((other, _)) => other == name,
        None => false,
    }
}

/// Whether one of the arguments is an option of this name.
#[tactic(auto, using(std::proofs::lemmas::List::drop_more))]
fn has_option(words: &[String], name: &str) -> bool
    ensures { result ≡ has_option name.now (map string_bytes words.now) }
{
    for word in words {
        if is_option_named(word.as_str(), name) {
            return true;
        }
    }
    false
}

/// Whether the option may have this value, and stands no second time among the arguments after it.
fn is_only(options: &[Argument<'_>], name: &str, value: &str, words: &[String]) -> bool
    ensures { result ≡ is_only (map slot_of options.now) name.now value.now (map string_bytes words.now) }
{
    option_fits(options, name, value) && !has_option(words, name)
}

/// Whether the arguments after the name of a command are a use of it.
fn is_used(row: &CommandRow<'_>, words: &[String]) -> bool
    ensures { result ≡ used_from (usage_of row.now).options (map string_bytes words.now) (usage_of row.now).plains
        (usage_of row.now).least }
{
    let mut rest = words;
    let mut plains = row.plains;
    let mut least = row.least;
    while let [word, tail @ ..] = rest {
        rest = tail;
        match option_of(word.as_str()) {
            Some((name, Some(value))) => {
                if value.is_empty() || !is_only(row.options, name, value, tail) {
                    return false;
                }
            }
            Some((name, None)) => {
                let [value, behind @ ..] = tail else {
                    return false;
                };
                if !is_plain(value.as_str())
                    || !is_only(row.options, name, value.as_str(), behind)
                {
                    return false;
                }
                rest = behind;
            }
            None => {
                let [plain, others @ ..] = plains else {
                    return false;
                };
                if !is_plain(word.as_str()) || !fits(plain.limit, word.as_str()) {
                    return false;
                }
                plains = others;
                least = least.saturating_sub(1);
            }
        }
    }
    least == 0
}

/// Whether the arguments are a use of a command of the table: whether `read` accepts them, if it has memory. Takes no
/// memory.
pub fn are_taken(program: Program<'_>, words: &[String]) -> bool
    requires sound { is_sound_table (usages_of program) ≡ true }
    ensures { IsTrue result ↔ AreTaken (usages_of program.entry) (map string_bytes words.now) }
{
    let [_, command, rest @ ..] = words else {
        return false;
    };
    match row_named(program.commands, command.as_str()) {
        Some(row) => is_used(row, rest),
        None => false,
    }
}
