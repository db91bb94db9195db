//! Words that are refused.

ghost use Rattle.std.specs.Prelude.{◌≡◌, map, string_bytes, []};
ghost use Rattle.command_words.specs.Taken.{IsWordsRefusal};
ghost use Rattle.command_line.specs.Table.{table_of_commands};
ghost use Rattle.locus_core.specs.Outside.{sink_change};
ghost use Rattle.locus_core.specs.Steps.{RefusesWords};

use crate::printing::end;
use crate::top::Answer;
use command_line::{Commands, WordsError, are_taken};
use locus_io::Sink;
use report::Status;

/// Ends a run whose words ask for nothing, or were not read for want of memory: the words alone tell which it is.
pub(crate) fn refuse_words<E: Sink>(err: &mut E, words: &[String], error: WordsError) -> Answer
    requires refusal { IsWordsRefusal (table_of_commands Commands.Built) (map string_bytes words.now) error }
    ensures refuses { RefusesWords (map string_bytes words.now) (sink_change E.written E.is_flushed E.faults err.old err.new)
        result.status }
    ensures shares { result.shares ≡ [] }
{
    match error {
        WordsError::ByCommand(text) => end(err, Status::WordsRefused, text.as_bytes()),
        WordsError::NoMemory if are_taken(Commands::Built, words) => end(
            err,
            Status::NoMemory,
            b"want of memory\n",
        ),
        WordsError::NoMemory => end(err, Status::WordsRefused, b"words refused\n"),
        WordsError::Refused => end(err, Status::WordsRefused, b"words refused\n"),
    }
}
