//! Writing what a run comes to.

ghost use Rattle.std.specs.Prelude.{◌≡◌, [], codes, IfOk, IsErr};
ghost use Rattle.report.specs.Statuses.{code_of};
ghost use Rattle.locus_core.specs.Texts.{refused_line, refused_checkpoint_line, refused_tree_line, refused_range_line};
ghost use Rattle.locus_core.specs.Outside.{sink_change, Sends};
ghost use Rattle.locus_core.specs.Steps.{Prints, Refuses};

use crate::top::Answer;
use crate::work::{Printable, Refusal};
use checkpoint::CheckpointError;
use locus_io::{Failed, Sink, put_all};
use problem_toml::ProblemError;
use report::Status;
use residue::NoMemory;
use std::alloc::Global;
use tree_text::TreeTextError;
use worker_pool::Shares;

/// Writes a text whole and flushes it; if the output does not take it, the run ends with a write fault.
pub(crate) fn print<O: Sink, E: Sink>(out: &mut O, err: &mut E, printable: Printable) -> Answer
    ensures prints { Prints (sink_change O.written O.is_flushed O.faults out.old out.new)
        (sink_change E.written E.is_flushed E.faults err.old err.new) (code_of printable.status) printable.text.items result.status }
    ensures shares { result.shares ≡ printable.shares }
{
    match put_all(out, printable.text.as_slice()) {
        Ok(()) => Answer {
            status: printable.status.code(),
            shares: printable.shares,
        },
        Err(Failed) => {
            tell(err, b"write fault\n");
            Answer {
                status: Status::WriteFault.code(),
                shares: printable.shares,
            }
        }
    }
}

/// Ends a run of which nothing is printed.
pub(crate) fn refuse<E: Sink>(alloc: Global, err: &mut E, refusal: Refusal) -> Answer
    ensures refuses { Refuses (sink_change E.written E.is_flushed E.faults err.old err.new) result.status refusal }
    ensures shares { result.shares ≡ [] }
{
    match refusal {
        Refusal::ReadFault => end(err, Status::ReadFault, b"read fault\n"),
        Refusal::NoMemory => end(err, Status::NoMemory, b"want of memory\n"),
        Refusal::Problem(error) => end_with(
            err,
            Status::ProblemRefused,
            problem_line(alloc, &error),
        ),
        Refusal::Checkpoint(error) => end_with(
            err,
            Status::CheckpointRefused,
            checkpoint_line(alloc, &error),
        ),
        Refusal::Tree(error) => end_with(err, Status::TreeRefused, tree_line(alloc, &error)),
        Refusal::Range(count) => end_with(err, Status::RangeRefused, range_line(alloc, count)),
    }
}

/// Ends a run with a line on standard error, or with want of memory if there is no line.
fn end_with<E: Sink>(err: &mut E, status: Status, line: Result<Vec<u8>, NoMemory>) -> Answer
    ensures line { IfOk line (λ line. (result.status ≡ code_of status)
        × Sends (sink_change E.written E.is_flushed E.faults err.old err.new) line.items) }
    ensures no_line { IsErr line → (result.status ≡ 9)
        × Sends (sink_change E.written E.is_flushed E.faults err.old err.new) (codes "want of memory\n") }
    ensures shares { result.shares ≡ [] }
{
    match line {
        Ok(line) => end(err, status, line.as_slice()),
        Err(NoMemory) => end(err, Status::NoMemory, b"want of memory\n"),
    }
}

/// Ends a run with a line on standard error. A fault there changes nothing.
pub(crate) fn end<E: Sink>(err: &mut E, status: Status, line: &[u8]) -> Answer
    ensures status { result.status ≡ code_of status }
    ensures line { Sends (sink_change E.written E.is_flushed E.faults err.old err.new) line.now }
    ensures shares { result.shares ≡ [] }
{
    tell(err, line);
    Answer {
        status: status.code(),
        shares: Shares::new(0),
    }
}

/// Writes a line to standard error, as far as it takes it.
fn tell<E: Sink>(err: &mut E, line: &[u8])
    ensures { Sends (sink_change E.written E.is_flushed E.faults err.old err.new) line.now }
{
    let _ = put_all(err, line);
}

/// The line of a refused problem with its line feed.
fn problem_line(alloc: Global, error: &ProblemError) -> Result<Vec<u8>, NoMemory>
    ensures { IfOk result (λ line. line.items ≡ refused_line error.now) }
{
    let mut line = problem_toml::refusal_line(alloc, error)?;
    line.push(b'\n')?;
    Ok(line)
}

/// The line of a refused checkpoint with its line feed.
fn checkpoint_line(alloc: Global, error: &CheckpointError) -> Result<Vec<u8>, NoMemory>
    ensures { IfOk result (λ line. line.items ≡ refused_checkpoint_line error.now) }
{
    let mut line = checkpoint::refusal_line(alloc, error)?;
    line.push(b'\n')?;
    Ok(line)
}

/// The line of a refused text of a tree with its line feed.
fn tree_line(alloc: Global, error: &TreeTextError) -> Result<Vec<u8>, NoMemory>
    ensures { IfOk result (λ line. line.items ≡ refused_tree_line error.now) }
{
    let mut line = tree_text::refusal_line(alloc, error)?;
    line.push(b'\n')?;
    Ok(line)
}

/// The line of numbers that are out of range, with its line feed.
fn range_line(alloc: Global, count: u64) -> Result<Vec<u8>, NoMemory>
    ensures { IfOk result (λ line. line.items ≡ refused_range_line count) }
{
    let line = format!(in alloc; "range refused {count}\n")?;
    Ok(Vec::from_slice(alloc, line.as_bytes())?)
}
