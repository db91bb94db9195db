//! Reading the arguments by a table.
ghost use Rattle.std.specs.Prelude.{◌≡◌, ◌≢◌, ◌<◌, length, IfOk, IfErr, true, [], map, option_map, string_bytes};
ghost use Rattle.clap.specs.Faults.{fault_of};
ghost use Rattle.clap.specs.Simple.{HasMatchesOf};
ghost use Rattle.clap.specs.Values.{kind_of};
ghost use Rattle.command_words.specs.Clap.{app_of_program};
ghost use Rattle.command_words.specs.Rows.{GivesUse, usage_named};
ghost use Rattle.command_words.specs.Taken.{IsWordsAnswer};
ghost use Rattle.command_words.specs.Usages.{is_sound_table, usages_of, usage_of};

use crate::command::command;
use crate::given::{Given, given_by};
use crate::look::has_refused_word;
use crate::table::{CommandRow, Program};
use clap::error::ErrorKind;
use clap::{ArgMatches, Error};
use std::alloc::{AllocError, Global};

/// Why arguments are not accepted.
#[derive(Debug, Drop)]
pub enum WordsError {
    /// The system gave no memory.
    NoMemory,
    /// An argument after the first is empty, `-`, `--`, or an option with nothing after its `=`.
    Refused,
    /// The arguments are refused by `clap`, for another cause: its text says which, and how the command is used.
    ByCommand(String),
}

#[tactic(auto, using(crate::proofs::Free::is_free))]
fn matches_of<'a>(
    alloc: Global,
    program: Program<'a>,
    words: &'a [String],
) -> Result<ArgMatches<'a>, Error>
    requires { 0 < length program.commands.now }
    ensures ok { IfOk result (λ m. fault_of (app_of_program program.entry) (map string_bytes words.now) ≡ []) }
    ensures found { IfOk result (HasMatchesOf (app_of_program program.entry) (map string_bytes words.now)) }
    ensures err { IfErr result (λ e. kind_of e ≢ ErrorKind.OutOfMemory
        → fault_of (app_of_program program.entry) (map string_bytes words.now) ≢ []) }
{
    command(alloc, program)?.try_get_matches_from(words)
}

/// The row of this name.
#[tactic(auto, using(std::proofs::lemmas::List::drop_more))]
pub(crate) fn row_named<'a>(rows: &'a [CommandRow<'a>], name: &str) -> Option<&'a CommandRow<'a>>
    ensures { option_map (λ row. usage_of row.now) result ≡ usage_named (map usage_of rows.now) name.now }
{
    for row in rows {
        if row.name == name {
            return Some(row);
        }
    }
    None
}

/// What the matches of a use give: `None` if they are of no command of the table.
fn given_of<'a>(
    alloc: Global,
    program: Program<'a>,
    matches: &ArgMatches<'a>,
) -> Result<Option<Given<'a>>, AllocError>
    ensures { IfOk result (GivesUse (usages_of program.entry) matches.now) }
{
    let Some((name, inner)) = matches.subcommand() else {
        return Ok(None);
    };
    let Some(row) = row_named(program.commands, name) else {
        return Ok(None);
    };
    Ok(Some(given_by(alloc, row, inner)?))
}

/// Reads the arguments of a command line: if they are a use of a command of the table, what they give it.
///
/// The first argument is the name of the program and is not looked at. The next is the name of a command. Each further
/// item is an option of that command, `--name value` or `--name=value`, or a positional argument. The value after `=`
/// is any text that is not empty; every other value and every positional argument is not empty and does not begin with
/// `-`.
///
/// # Errors
///
/// `Refused` exactly if an argument after the first is empty, `-`, `--`, or an option with nothing after its `=`.
/// `ByCommand` if there is no such argument and the arguments are no use of a command of the table. `NoMemory` if the
/// system gave no memory.
pub fn read<'a>(
    alloc: Global,
    program: Program<'a>,
    words: &'a [String],
) -> Result<Given<'a>, WordsError>
    requires sound { is_sound_table (usages_of program) ≡ true }
    ensures answer { IsWordsAnswer (usages_of program.entry) (map string_bytes words.now) result }
{
    if has_refused_word(words) {
        return Err(WordsError::Refused);
    }
    let matches = match matches_of(alloc, program, words) {
        Ok(matches) => matches,
        Err(error) if error.kind() == ErrorKind::OutOfMemory => return Err(WordsError::NoMemory),
        Err(error) => {
            return match format!(in alloc; "{error}") {
                Ok(text) => Err(WordsError::ByCommand(text)),
                Err(_) => Err(WordsError::NoMemory),
            };
        }
    };
    match given_of(alloc, program, &matches) {
        Ok(Some(found)) => Ok(found),
        Ok(None) => unreachable!(),
        Err(_) => Err(WordsError::NoMemory),
    }
}
