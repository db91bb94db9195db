//! Reading the arguments of the command line.
ghost use Rattle.std.specs.Prelude.{◌≡◌, ◌↔◌, map, string_bytes, IfOk, IsTrue};
ghost use Rattle.command_line.specs.Asked.{IsReading};
ghost use Rattle.command_line.specs.Limits.{IsBuilt, IsWithin};
ghost use Rattle.command_line.specs.Requests.{request_of};
ghost use Rattle.command_line.specs.Table.{table_of_commands};
ghost use Rattle.command_words.specs.Taken.{AreTaken};

use crate::command::Command;
use crate::requests::request;
use crate::table::Commands;
use command_words::WordsError;
use std::alloc::Global;

/// Reads the arguments of the command line: what they ask, by the table of these commands. The first argument is the
/// program's name.
///
/// # Errors
///
/// `Refused` exactly if an argument after the first is empty, `-`, `--`, or an option with nothing after its `=`.
/// `ByCommand` with the text to print if there is no such argument and the arguments are no use of one of the
/// commands.
/// `NoMemory` if the system gave no memory.
pub fn read<'a>(
    alloc: Global,
    commands: Commands,
    words: &'a [String],
) -> Result<Command<'a>, WordsError>
    ensures reading { IsReading commands (map string_bytes words.now) result }
    // What is asked is within its limits.
    ensures within { IfOk result (λ command. IsWithin (request_of command)) }
    // Of the commands that are built, what is asked is one of the seven.
    ensures built { commands ≡ Commands.Built → IfOk result (λ command. IsBuilt (request_of command)) }
{
    let given = command_words::read(alloc, commands.program(), words)?;
    match request(given) {
        Some(command) => Ok(command),
        None => unreachable!(),
    }
}

/// Whether the arguments are a use of one of these commands: whether `read` accepts them, if it has memory. Takes no
/// memory.
pub fn are_taken(commands: Commands, words: &[String]) -> bool
    ensures { IsTrue result ↔ AreTaken (table_of_commands commands) (map string_bytes words.now) }
{
    command_words::are_taken(commands.program(), words)
}
