//! What is given to a command: its positional arguments and its options.
ghost use Rattle.std.specs.Prelude.{◌≡◌, IfOk, map, option_map};
ghost use Rattle.clap.specs.Walk.{first_of};
ghost use Rattle.command_words.specs.Rows.{HoldsRows, pairs_of, rows_in, texts_of};
ghost use Rattle.command_words.specs.Taken.{pair_of};
ghost use Rattle.command_words.specs.Usages.{slot_of, usage_of};
ghost use Rattle.command_words.specs.Words.{value_named};

use crate::table::{Argument, CommandRow};
use clap::ArgMatches;
use std::alloc::{AllocError, Global};

/// An option that was given, with its value.
#[derive(Clone, Copy, Debug)]
pub struct GivenOption<'a> {
    /// The name, without `--`.
    pub name: &'a str,
    /// The value, as it was written.
    pub value: &'a str,
}

/// A command with what it was given.
#[derive(Debug, Drop)]
pub struct Given<'a> {
    /// The name of the command.
    pub command: &'a str,
    /// The positional arguments, in their order.
    pub plains: Vec<&'a str>,
    /// The options that were given, in the order of the table.
    pub options: Vec<GivenOption<'a>>,
}

impl<'a> Given<'a> {
    /// The value of the option of this name, if it was given.
    #[tactic(auto, using(std::proofs::lemmas::List::drop_more))]
    pub fn option(&self, name: &str) -> Option<&'a str>
        ensures { option_map (λ v. v.now) result ≡ value_named name.now (map pair_of self.now.options.items) }
    {
        for option in &self.options {
            if option.name == name {
                return Some(option.value);
            }
        }
        None
    }
}

/// The text of this name.
fn text<'a>(matches: &ArgMatches<'a>, name: &str) -> Option<&'a str>
    ensures { option_map (λ s. s.now) result ≡ first_of name.now (rows_in matches.now) }
{
    matches.get_str(name)
}

/// The values of some arguments, up to the first that has none: the positional arguments of a use.
#[tactic(auto, using(std::proofs::lemmas::List::drop_more))]
fn plains<'a>(
    alloc: Global,
    matches: &ArgMatches<'a>,
    arguments: &[Argument<'a>],
) -> Result<Vec<&'a str>, AllocError>
    ensures { IfOk result (λ r.
        map (λ s. s.now) r.items ≡ texts_of (map slot_of arguments.now) (rows_in matches.now)) }
{
    let mut found = Vec::new(alloc);
    for argument in arguments {
        match text(matches, argument.name) {
            Some(word) => found.push(word)?,
            None => return Ok(found),
        }
    }
    Ok(found)
}

/// The values of those arguments that have one: the options of a use.
#[tactic(auto, using(std::proofs::lemmas::List::drop_more))]
fn options<'a>(
    alloc: Global,
    matches: &ArgMatches<'a>,
    arguments: &[Argument<'a>],
) -> Result<Vec<GivenOption<'a>>, AllocError>
    ensures { IfOk result (λ r.
        map pair_of r.items ≡ pairs_of (map slot_of arguments.now) (rows_in matches.now)) }
{
    let mut found = Vec::new(alloc);
    for argument in arguments {
        if let Some(value) = text(matches, argument.name) {
            found.push(GivenOption {
                name: argument.name,
                value,
            })?;
        }
    }
    Ok(found)
}

/// What was given to the command of this row.
pub(crate) fn given_by<'a>(
    alloc: Global,
    row: &CommandRow<'a>,
    matches: &ArgMatches<'a>,
) -> Result<Given<'a>, AllocError>
    ensures { IfOk result (λ g. HoldsRows g (usage_of row.now) (rows_in matches.now)) }
{
    Ok(Given {
        command: row.name,
        plains: plains(alloc, matches, row.plains)?,
        options: options(alloc, matches, row.options)?,
    })
}
