//! The trees of a range of numbers, with the residues of their contributions.

ghost use Rattle.std.specs.Prelude.{◌≡◌, IfOk};
ghost use Rattle.problem.specs.Problems.{view as problem_view};
ghost use Rattle.command_line.specs.Limits.{AreWorkers};
ghost use Rattle.command_line.specs.Requests.{trees};
ghost use Rattle.report.specs.Statuses.{code_of};
ghost use Rattle.tree_listing.specs.Ranges.{IsListable, ShareBlocks};
ghost use Rattle.tree_listing.specs.Texts.{trees_text};
ghost use Rattle.locus_core.specs.Outside.{Change, Unchanged, StopperState, files_change};
ghost use Rattle.locus_core.specs.Steps.{IsWork};

use crate::numbers::problem_of;
use crate::work::{Printable, Refusal, or_refusal};
use locus_io::Files;
use problem::Problem;
use report::Status;
use residue::NoMemory;
use std::alloc::Global;
use std::thread::Threads;
use tree_listing::{Listing, is_listable, list_trees};
use worker_pool::Gate;

/// The list of the trees of the numbers from `low` to `high - 1`, among the decorated trees of the problem of a file.
pub(crate) fn list<R: Threads + Sync, F: Files, G: Gate>(
    rt: &R,
    alloc: Global,
    files: &mut F,
    name: &str,
    low: u64,
    high: u64,
    workers: u32,
    gate: &G,
) -> Result<Printable, Refusal>
    requires { AreWorkers workers }
    ensures { (stopper : Change StopperState) → Unchanged stopper → IsWork (trees name.now low high workers)
        (files_change F.content F.faults F.last_fault files.old files.new) stopper result }
{
    let problem = problem_of(alloc, files, name)?;
    if !is_listable(&problem, low, high) {
        return Err(Refusal::Range(problem.shape.count()));
    }
    or_refusal(listed(rt, alloc, &problem, low, high, workers, gate))
}

/// The lines of the trees.
fn listed<R: Threads + Sync, G: Gate>(
    rt: &R,
    alloc: Global,
    problem: &Problem,
    low: u64,
    high: u64,
    workers: u32,
    gate: &G,
) -> Result<Printable, NoMemory>
    requires range { IsListable (problem_view problem.now) low high }
    requires workers { AreWorkers workers }
    ensures status { IfOk result (λ printed. code_of printed.status ≡ 0) }
    ensures text { IfOk result (λ printed. printed.text.items ≡ trees_text (problem_view problem.now) low high) }
    ensures shares { IfOk result (λ printed. ShareBlocks low high workers printed.shares) }
{
    let Listing { text, shares } = list_trees(rt, alloc, problem, low, high, workers, gate)?;
    Ok(Printable {
        status: Status::Done,
        text,
        shares,
    })
}
