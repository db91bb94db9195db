//! The list of a range of numbers.

ghost use Rattle.std.specs.Prelude.{◌≡◌, ◌↔◌, ◌<◌, ◌≤◌, IfOk, IsTrue};
ghost use Rattle.problem.specs.Problems.{view as problem_view};
ghost use Rattle.list_job.specs.Listings.{AreListing};
ghost use Rattle.list_job.specs.Jobs.{view};
ghost use Rattle.tree_listing.specs.Texts.{trees_text};
ghost use Rattle.tree_listing.specs.Ranges.{IsListable, ShareBlocks};

use crate::text::append_tree;
use list_job::{ListJob, ListPart, empty_parts, entry_of, list_numbers};
use lists::NoMemory;
use problem::Problem;
use std::alloc::Global;
use std::thread::Threads;
use table_sum::{TableSum, problem_table};
use worker_pool::{Gate, Shares};

/// The most numbers that are listed at once.
const MOST: u64 = 4_096;

/// The text of a list of trees.
#[derive(Drop)]
pub struct Listing {
    /// The lines of the trees, in order.
    pub text: Vec<u8>,
    /// How many blocks of 64 numbers each worker worked.
    pub shares: Shares,
}

/// Whether the trees of the numbers from `first` to `end - 1` can be listed: there is at least one number and there are at
/// most 4,096, and each is below the number of trees of the problem. It takes no memory.
pub fn is_listable(problem: &Problem, first: u64, end: u64) -> bool
    ensures { IsTrue result ↔ IsListable (problem_view problem.now) first end }
{
    first < end && end <= problem.shape.count() && end - first <= MOST
}

/// Lists the trees of the numbers from `first` to `end - 1` on 1 to 64 workers. All workers share a table of factors, which
/// the call makes and fills as it goes.
///
/// # Errors
/// `NoMemory` if there is no memory for the table of factors, the entries, the claims of the round or the text.
pub fn list_trees<R: Threads + Sync, G: Gate>(
    rt: &R,
    alloc: Global,
    problem: &Problem,
    first: u64,
    end: u64,
    workers: u32,
    gate: &G,
) -> Result<Listing, NoMemory>
    requires range { IsListable (problem_view problem.now) first end }
    requires workers { (0 < workers) × (workers ≤ 64) }
    ensures text { IfOk result (λ listing. listing.text.items ≡ trees_text (problem_view problem.now) first end) }
    ensures shares { IfOk result (λ listing. ShareBlocks first end workers listing.shares) }
{
    let (table, seats) = problem_table(alloc, problem, workers)?;
    let mut parts = empty_parts(alloc, (end - first) as u32, seats)?;
    let mut shares = Shares::new(workers);
    let sum = TableSum::of(problem, &table);
    let job = ListJob::new(&sum, first, end);
    list_numbers(rt, alloc, &job, gate, parts.as_mut_slice(), &mut shares)?;
    let text = text_of(alloc, problem, &job, parts.as_slice(), first, end)?;
    Ok(Listing { text, shares })
}

/// The lines of all numbers of a job of this problem, from the parts that list them.
fn text_of(
    alloc: Global,
    problem: &Problem,
    job: &ListJob,
    parts: &[ListPart],
    first: u64,
    end: u64,
) -> Result<Vec<u8>, NoMemory>
    requires listed { AreListing (view job.now) parts.now }
    requires problem { (view job.now).problem ≡ problem_view problem.now }
    requires first { (view job.now).first ≡ first }
    requires end { (view job.now).end ≡ end }
    requires range { IsListable (problem_view problem.now) first end }
    ensures { IfOk result (λ text. text.items ≡ trees_text (problem_view problem.now) first end) }
{
    let mut text = Vec::new(alloc);
    for number in first..end {
        append_tree(&mut text, problem, entry_of(job, parts, number))?;
    }
    Ok(text)
}
