//! What a request comes to, before anything is written.

ghost use Rattle.std.specs.Prelude.{◌≡◌, ◌≢◌, ◌<◌, ◌^◌, Ok, Err, IfOk, IfErr, OnErr, [], suc};
ghost use Rattle.command_line.specs.Limits.{IsBuilt, IsSumWithin, IsWithin};
ghost use Rattle.command_line.specs.Requests.{sum_of_request, request_of, run, resume, soak};
ghost use Rattle.problem_toml.specs.Generator.{generated_problem};
ghost use Rattle.problem_toml.specs.Reading.{reading_of_any_length};
ghost use Rattle.report.specs.Statuses.{code_of};
ghost use Rattle.locus_core.specs.Outside.{Unchanged, files_change, stopper_change, HasFaultAt};
ghost use Rattle.locus_core.specs.Steps.{IsWork, Loads, as_refusal};

use crate::listing::list;
use crate::numbers::{rank, unrank};
use crate::sums::{go_on, soak};
use checkpoint::{CheckpointError, fresh};
use command_line::{Command, RunRequest};
use locus_io::{Files, LoadError, Stopper};
use problem_toml::{ProblemError, generated, write};
use report::Status;
use residue::NoMemory;
use std::alloc::Global;
use std::thread::Threads;
use tree_text::TreeTextError;
use worker_pool::{Gate, Shares};

/// The greatest number of bytes that a problem text has.
pub(crate) const MOST_PROBLEM: u64 = 1_048_576;

/// The greatest number of bytes that a checkpoint has.
const MOST_CHECKPOINT: u64 = 1_052_672;

/// What is printed of a request.
#[derive(Drop)]
pub(crate) struct Printable {
    /// How the run ends if the text is printed whole.
    pub status: Status,
    /// The whole text.
    pub text: Vec<u8>,
    /// How many blocks each worker worked; of a request that sums nothing there are no workers.
    pub shares: Shares,
}

/// Why nothing is printed of a request.
#[derive(Drop)]
pub(crate) enum Refusal {
    /// The file was not read.
    ReadFault,
    /// The bytes of the file write no problem.
    Problem(ProblemError),
    /// The bytes of the file are the text of no state.
    Checkpoint(CheckpointError),
    /// The text is that of no decorated tree of the problem.
    Tree(TreeTextError),
    /// The numbers are not those of decorated trees of the problem, of which there are so many; or those of a list are none,
    /// or too many.
    Range(u64),
    /// The system gave no memory.
    NoMemory,
}

/// The answer of a step that fails for want of memory alone.
pub(crate) fn or_refusal(given: Result<Printable, NoMemory>) -> Result<Printable, Refusal>
    ensures { result ≡ as_refusal given }
{
    match given {
        Ok(printable) => Ok(printable),
        Err(NoMemory) => Err(Refusal::NoMemory),
    }
}

/// Does what a command asks for, up to the text that is to be printed.
pub(crate) fn work<R: Threads + Sync, F: Files, S: Stopper, G: Gate>(
    rt: &R,
    alloc: Global,
    command: Command<'_>,
    files: &mut F,
    stopper: &mut S,
    gate: &G,
) -> Result<Printable, Refusal>
    requires built { IsBuilt (request_of command) }
    requires within { IsWithin (request_of command) }
    ensures { IsWork (request_of command.entry) (files_change F.content F.faults F.last_fault files.old files.new)
        (stopper_change S.stops S.last_stop stopper.old stopper.new) result }
{
    match command {
        Command::Run(request) => run(rt, alloc, request, files, stopper, gate),
        Command::Resume(request) => resume(rt, alloc, request, files, stopper, gate),
        Command::Make { number } => or_refusal(make(alloc, number as u32)),
        Command::Soak { number, workers } => or_refusal(soak(
            rt,
            alloc,
            number as u32,
            workers as u32,
            stopper,
            gate,
        )),
        Command::Trees {
            file,
            low,
            high,
            workers,
        } => list(rt, alloc, files, file, low, high, workers as u32, gate),
        Command::Rank { file, text } => rank(alloc, files, file, text),
        Command::Unrank { file, number } => unrank(alloc, files, file, number),
        _ => unreachable!(),
    }
}

/// Sums the problem of a file.
fn run<R: Threads + Sync, F: Files, S: Stopper, G: Gate>(
    rt: &R,
    alloc: Global,
    request: RunRequest<'_>,
    files: &mut F,
    stopper: &mut S,
    gate: &G,
) -> Result<Printable, Refusal>
    requires within { IsSumWithin (sum_of_request request) }
    ensures { IsWork (run (sum_of_request request.entry))
        (files_change F.content F.faults F.last_fault files.old files.new)
        (stopper_change S.stops S.last_stop stopper.old stopper.new) result }
{
    let bytes = match load(alloc, files, request.file, MOST_PROBLEM) {
        Ok(bytes) => bytes,
        Err(LoadError::Failed) => return Err(Refusal::ReadFault),
        Err(LoadError::NoMemory) => return Err(Refusal::NoMemory),
    };
    match fresh(alloc, bytes.as_slice()) {
        Ok(state) => or_refusal(go_on(rt, alloc, state, request, stopper, gate)),
        Err(error) => {
            if let ProblemError::NoMemory = error {
                return Err(Refusal::NoMemory);
            }
            Err(Refusal::Problem(error))
        }
    }
}

/// Goes on with the sum of a checkpoint file.
fn resume<R: Threads + Sync, F: Files, S: Stopper, G: Gate>(
    rt: &R,
    alloc: Global,
    request: RunRequest<'_>,
    files: &mut F,
    stopper: &mut S,
    gate: &G,
) -> Result<Printable, Refusal>
    requires within { IsSumWithin (sum_of_request request) }
    ensures { IsWork (resume (sum_of_request request.entry))
        (files_change F.content F.faults F.last_fault files.old files.new)
        (stopper_change S.stops S.last_stop stopper.old stopper.new) result }
{
    let bytes = match load(alloc, files, request.file, MOST_CHECKPOINT) {
        Ok(bytes) => bytes,
        Err(LoadError::Failed) => return Err(Refusal::ReadFault),
        Err(LoadError::NoMemory) => return Err(Refusal::NoMemory),
    };
    match checkpoint::read(alloc, bytes.as_slice()) {
        Ok(state) => or_refusal(go_on(rt, alloc, state, request, stopper, gate)),
        Err(error) => {
            if let CheckpointError::NoMemory = error {
                return Err(Refusal::NoMemory);
            }
            Err(Refusal::Checkpoint(error))
        }
    }
}

/// The bytes of a file, of a longer one no more than one byte past `most`, so that it is seen to be too long.
#[tactic(auto, unfolding(crate::specs::Steps::loaded))]
pub(crate) fn load<F: Files>(
    alloc: Global,
    files: &mut F,
    name: &str,
    most: u64,
) -> Result<Vec<u8>, LoadError>
    requires { most < 2 ^ 32 }
    ensures found { IfOk result (λ bytes.
        Loads most (files_change F.content F.faults F.last_fault files.old files.new) name.now bytes.items) }
    ensures failed { result ≡ Err LoadError.Failed →
        HasFaultAt (files_change F.content F.faults F.last_fault files.old files.new) name.now }
    ensures unchanged { result ≢ Err LoadError.Failed →
        Unchanged (files_change F.content F.faults F.last_fault files.old files.new) }
{
    files.load(alloc, name, most + 1)
}

/// A text of the generated problem of a number.
fn make(alloc: Global, number: u32) -> Result<Printable, NoMemory>
    ensures status { IfOk result (λ made. code_of made.status ≡ 0) }
    ensures text { IfOk result (λ made. reading_of_any_length made.text.items ≡ Ok (generated_problem number)) }
    ensures shares { IfOk result (λ made. made.shares ≡ []) }
{
    let problem = generated(alloc, number)?;
    Ok(Printable {
        status: Status::Done,
        text: write(alloc, &problem)?,
        shares: Shares::new(0),
    })
}
