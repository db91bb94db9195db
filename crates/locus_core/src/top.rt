//! The top call.

ghost use Rattle.std.specs.Prelude.{◌≡◌, ◌↔◌, codes, map, string_bytes, []};
ghost use Rattle.locus_core.specs.Outside.{files_change, sink_change, stopper_change, Sends};
ghost use Rattle.locus_core.specs.Words.{AskNothing};
ghost use Rattle.locus_core.specs.Ends.{run_of, Ends};
ghost use Rattle.locus_core.specs.Headline.{IsStatus, Accepts, NamesBadTrees, NeedsItsFile, IsDecided, HeedsStops, MakesProblem};
ghost use Rattle.locus_core.specs.Headline.{PrintsItsSums, NamesLeast, PrintsCheckpoint, ClaimsBlocks, WritesBytes};
ghost use Rattle.locus_core.specs.Chains.{EndsItsChains};
ghost use Rattle.locus_core.specs.Numbers.{PrintsNumbers, DecidesNumbers, UndoesNumbers};

use crate::printing::{end as end_with, print, refuse};
use crate::words::refuse_words as refuse_read_words;
use crate::work::work;
use command_line::{Commands, read};
use locus_io::{Files, Sink, Stopper, WordsError};
use report::Status;
use std::alloc::Global;
use std::thread::Threads;
use worker_pool::{Gate, Shares};

/// How a run ended.
#[derive(Debug, Drop)]
pub struct Answer {
    /// The exit status: 0 done with a fraction for each integral, or a text was made; 1 done without a fraction for some
    /// integral; 2 words refused; 3 problem refused; 4 no inverse; 5 paused; 6 read fault; 7 write fault; 8 checkpoint
    /// refused; 9 want of memory; 10 numbers out of range; 11 text of no tree of the problem.
    pub status: u8,
    /// How many blocks of 64 trees each worker worked, one number for each worker: 0 for each if no tree was left to sum.
    /// There are no numbers if no sum and no list was begun, or nothing of it was printed for want of memory.
    pub shares: Shares,
}

/// Does what the words ask for, and ends in one of the ways that there are.
fn end<R: Threads + Sync, F: Files, O: Sink, E: Sink, S: Stopper, G: Gate>(
    rt: &R,
    alloc: Global,
    words: &[String],
    files: &mut F,
    out: &mut O,
    err: &mut E,
    stopper: &mut S,
    gate: &G,
) -> Answer
    ensures { Ends (run_of (map string_bytes words.now)
        (files_change F.content F.faults F.last_fault files.old files.new)
        (sink_change O.written O.is_flushed O.faults out.old out.new)
        (sink_change E.written E.is_flushed E.faults err.old err.new)
        (stopper_change S.stops S.last_stop stopper.old stopper.new) result.shares) result.status }
{
    let command = match read(alloc, Commands::Built, words) {
        Ok(command) => command,
        Err(error) => return refuse_read_words(err, words, error),
    };
    match work(rt, alloc, command, files, stopper, gate) {
        Ok(printable) => print(out, err, printable),
        Err(refusal) => refuse(alloc, err, refusal),
    }
}

/// Does all that the program does: it reads the words, and does what they ask for. `run FILE` loads and reads a problem and
/// sums the contributions of all its decorated trees, `resume FILE` goes on with a sum that was paused, `make N` writes a
/// generated problem, and `soak N` sums one. `rank FILE TEXT` writes the number of a tree of a problem, and `unrank FILE K`
/// the tree of a number; `trees FILE LO HI` lists the trees of the numbers from LO to HI - 1 with the residues of their
/// contributions. The whole text is made before its first byte is written.
///
/// What is said of a file holds if `files` tells what it holds, and what is said of written bytes if the sink tells them.
pub fn locus<R: Threads + Sync, F: Files, O: Sink, E: Sink, S: Stopper, G: Gate>(
    rt: &R,
    alloc: Global,
    words: &[String],
    files: &mut F,
    out: &mut O,
    err: &mut E,
    stopper: &mut S,
    gate: &G,
) -> Answer
    ensures ends { Ends (run_of (map string_bytes words.now)
        (files_change F.content F.faults F.last_fault files.old files.new)
        (sink_change O.written O.is_flushed O.faults out.old out.new)
        (sink_change E.written E.is_flushed E.faults err.old err.new)
        (stopper_change S.stops S.last_stop stopper.old stopper.new) result.shares) result.status }

    // No other status comes. Status 9 is want of memory, and no clause says when memory is refused.
    ensures known { IsStatus result.status }

    // Status 2 comes exactly if the words ask for nothing.
    ensures words { (result.status ≡ 2) ↔ AskNothing (map string_bytes words.now) }

    // If the file was read, its bytes decide whether they are refused: for `run`, `trees`, `rank` and `unrank` status 3
    // comes exactly if they write no problem, and for `resume` status 8 exactly if they are the text of no state.
    ensures accepted { Accepts (run_of (map string_bytes words.now)
        (files_change F.content F.faults F.last_fault files.old files.new)
        (sink_change O.written O.is_flushed O.faults out.old out.new)
        (sink_change E.written E.is_flushed E.faults err.old err.new)
        (stopper_change S.stops S.last_stop stopper.old stopper.new) result.shares) result.status }

    // Of a sum that is begun anew, or with true residues: if it is done or has no inverse, and its text was printed whole,
    // status 4 comes exactly if some decorated tree is bad.
    ensures bad { NamesBadTrees (run_of (map string_bytes words.now)
        (files_change F.content F.faults F.last_fault files.old files.new)
        (sink_change O.written O.is_flushed O.faults out.old out.new)
        (sink_change E.written E.is_flushed E.faults err.old err.new)
        (stopper_change S.stops S.last_stop stopper.old stopper.new) result.shares) result.status }

    // If the file that is asked for is not there, the run ends with a read fault, but for want of memory.
    ensures absent { NeedsItsFile (run_of (map string_bytes words.now)
        (files_change F.content F.faults F.last_fault files.old files.new)
        (sink_change O.written O.is_flushed O.faults out.old out.new)
        (sink_change E.written E.is_flushed E.faults err.old err.new)
        (stopper_change S.stops S.last_stop stopper.old stopper.new) result.shares) result.status }

    // If neither the files nor the output count a fault and nobody asks for a stop, a sum that is begun has the status of
    // its numbers within the budget, but for want of memory: 4 if one of them is bad; otherwise 5 if trees are left, and 0
    // or 1 if none is.
    ensures decided { IsDecided (run_of (map string_bytes words.now)
        (files_change F.content F.faults F.last_fault files.old files.new)
        (sink_change O.written O.is_flushed O.faults out.old out.new)
        (sink_change E.written E.is_flushed E.faults err.old err.new)
        (stopper_change S.stops S.last_stop stopper.old stopper.new) result.shares) result.status }

    // If somebody asks for a stop under the name of the stop file, the sum pauses: status 5, unless the checkpoint is not taken
    // whole or memory is refused. Nobody else stops a sum.
    ensures stops { HeedsStops (run_of (map string_bytes words.now)
        (files_change F.content F.faults F.last_fault files.old files.new)
        (sink_change O.written O.is_flushed O.faults out.old out.new)
        (sink_change E.written E.is_flushed E.faults err.old err.new)
        (stopper_change S.stops S.last_stop stopper.old stopper.new) result.shares) result.status }

    // At status 0 and 1, but for `make`, `trees`, `rank` and `unrank`, what is printed is the residues that the sum began with
    // plus those of all numbers from its first on, and the only fractions that agree with them. If it began anew or with
    // true residues, they are Kontsevich's.
    ensures residues { PrintsItsSums (run_of (map string_bytes words.now)
        (files_change F.content F.faults F.last_fault files.old files.new)
        (sink_change O.written O.is_flushed O.faults out.old out.new)
        (sink_change E.written E.is_flushed E.faults err.old err.new)
        (stopper_change S.stops S.last_stop stopper.old stopper.new) result.shares) result.status }

    // At status 4 the least bad number from the first on is named, with its first modulus and its tree.
    ensures refusal { result.status ≡ 4 → NamesLeast (run_of (map string_bytes words.now)
        (files_change F.content F.faults F.last_fault files.old files.new)
        (sink_change O.written O.is_flushed O.faults out.old out.new)
        (sink_change E.written E.is_flushed E.faults err.old err.new)
        (stopper_change S.stops S.last_stop stopper.old stopper.new) result.shares) }

    // At status 5 a checkpoint is printed, which a later run resumes.
    ensures pause { result.status ≡ 5 → PrintsCheckpoint (run_of (map string_bytes words.now)
        (files_change F.content F.faults F.last_fault files.old files.new)
        (sink_change O.written O.is_flushed O.faults out.old out.new)
        (sink_change E.written E.is_flushed E.faults err.old err.new)
        (stopper_change S.stops S.last_stop stopper.old stopper.new) result.shares) }

    // Whatever the budgets, the workers and the stops of the runs before: if this run resumes what the last of them printed,
    // and so on down to a run of a problem text, it prints Kontsevich's sums of that problem over all decorated trees, or
    // the least of them that is bad, or the checkpoint of a true state.
    ensures chains { EndsItsChains (run_of (map string_bytes words.now)
        (files_change F.content F.faults F.last_fault files.old files.new)
        (sink_change O.written O.is_flushed O.faults out.old out.new)
        (sink_change E.written E.is_flushed E.faults err.old err.new)
        (stopper_change S.stops S.last_stop stopper.old stopper.new) result.shares) result.status }

    // Each worker has a share, and the shares add up to the blocks of the rounds whose outcome was printed, or of the list.
    ensures claims { ClaimsBlocks (run_of (map string_bytes words.now)
        (files_change F.content F.faults F.last_fault files.old files.new)
        (sink_change O.written O.is_flushed O.faults out.old out.new)
        (sink_change E.written E.is_flushed E.faults err.old err.new)
        (stopper_change S.stops S.last_stop stopper.old stopper.new) result.shares) result.status }

    // What goes to the output and to standard error at each status, and when the files count a fault.
    ensures bytes { WritesBytes (run_of (map string_bytes words.now)
        (files_change F.content F.faults F.last_fault files.old files.new)
        (sink_change O.written O.is_flushed O.faults out.old out.new)
        (sink_change E.written E.is_flushed E.faults err.old err.new)
        (stopper_change S.stops S.last_stop stopper.old stopper.new) result.shares) result.status }

    // `make` prints a text that reads as the generated problem, but for a fault of the output and want of memory.
    ensures make { MakesProblem (run_of (map string_bytes words.now)
        (files_change F.content F.faults F.last_fault files.old files.new)
        (sink_change O.written O.is_flushed O.faults out.old out.new)
        (sink_change E.written E.is_flushed E.faults err.old err.new)
        (stopper_change S.stops S.last_stop stopper.old stopper.new) result.shares) result.status }

    // At status 0 `rank` prints the number of the decorated tree of the problem that has the text, `unrank` the text of the
    // tree of the number, and `trees` the number, the text and the residues of the contribution of each tree of the range, the
    // same for every number of workers. If no residue is missing, they add up to those of the partial sums, and for all trees
    // to those of Kontsevich's sums.
    ensures numbers { PrintsNumbers (run_of (map string_bytes words.now)
        (files_change F.content F.faults F.last_fault files.old files.new)
        (sink_change O.written O.is_flushed O.faults out.old out.new)
        (sink_change E.written E.is_flushed E.faults err.old err.new)
        (stopper_change S.stops S.last_stop stopper.old stopper.new) result.shares) result.status }

    // If the file was read and writes a problem: `rank` has status 11 exactly if the text is that of no decorated tree of the
    // problem, `unrank` has status 10 exactly if the number is not below the number of them, and `trees` has status 10 exactly
    // if LO >= HI, or HI is above the number of them, or HI - LO above 4,096. Otherwise they have status 0, but for a fault of
    // the output and want of memory.
    ensures choice { DecidesNumbers (run_of (map string_bytes words.now)
        (files_change F.content F.faults F.last_fault files.old files.new)
        (sink_change O.written O.is_flushed O.faults out.old out.new)
        (sink_change E.written E.is_flushed E.faults err.old err.new)
        (stopper_change S.stops S.last_stop stopper.old stopper.new) result.shares) result.status }

    // `rank` undoes `unrank`, and `unrank` undoes `rank`: each gives back what an earlier run of the other one was given, from
    // what that run printed.
    ensures inverse { UndoesNumbers (run_of (map string_bytes words.now)
        (files_change F.content F.faults F.last_fault files.old files.new)
        (sink_change O.written O.is_flushed O.faults out.old out.new)
        (sink_change E.written E.is_flushed E.faults err.old err.new)
        (stopper_change S.stops S.last_stop stopper.old stopper.new) result.shares) result.status }
{
    end(rt, alloc, words, files, out, err, stopper, gate)
}

/// Ends a run whose words were not read: words that are no text are refused.
pub fn refuse_words<E: Sink>(err: &mut E, error: WordsError) -> Answer
    ensures not_text { error ≡ WordsError.NotText → (result.status ≡ 2)
        × Sends (sink_change E.written E.is_flushed E.faults err.old err.new) (codes "words refused\n") }
    ensures no_memory { error ≡ WordsError.NoMemory → (result.status ≡ 9)
        × Sends (sink_change E.written E.is_flushed E.faults err.old err.new) (codes "want of memory\n") }
    ensures shares { result.shares ≡ [] }
{
    match error {
        WordsError::NotText => end_with(err, Status::WordsRefused, b"words refused\n"),
        WordsError::NoMemory => end_with(err, Status::NoMemory, b"want of memory\n"),
    }
}
