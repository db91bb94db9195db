//! The number of a tree, and the tree of a number.

ghost use Rattle.std.specs.Prelude.{◌≡◌, ◌<◌, [], IfOk, IsTrue};
ghost use Rattle.trees.specs.TreeNumbers.{tree_count, tree_of, number_of};
ghost use Rattle.decorated_tree.specs.Trees.{is_tree_of, tree_view};
ghost use Rattle.command_line.specs.Requests.{rank, unrank};
ghost use Rattle.report.specs.Statuses.{code_of};
ghost use Rattle.locus_core.specs.Texts.{number_line, tree_line};
ghost use Rattle.locus_core.specs.Outside.{Change, Unchanged, StopperState, files_change};
ghost use Rattle.locus_core.specs.Steps.{IsProblemOf, IsWork};

use crate::work::{MOST_PROBLEM, Printable, Refusal, load, or_refusal};
use decorated_tree::{Shape, Tree, write_text};
use locus_io::{Files, LoadError};
use problem::Problem;
use problem_toml::ProblemError;
use report::Status;
use residue::NoMemory;
use std::alloc::Global;
use tree_text::read;
use worker_pool::Shares;

/// The number of the tree that a text is of, among the decorated trees of the problem of a file.
pub(crate) fn rank<F: Files>(
    alloc: Global,
    files: &mut F,
    name: &str,
    text: &str,
) -> Result<Printable, Refusal>
    ensures { (stopper : Change StopperState) → Unchanged stopper → IsWork (rank name.now text.now)
        (files_change F.content F.faults F.last_fault files.old files.new) stopper result }
{
    let problem = problem_of(alloc, files, name)?;
    match read(text.as_bytes(), &problem.shape) {
        Ok(tree) => or_refusal(numbered(alloc, &problem.shape, &tree)),
        Err(error) => Err(Refusal::Tree(error)),
    }
}

/// The tree of a number, among the decorated trees of the problem of a file.
pub(crate) fn unrank<F: Files>(
    alloc: Global,
    files: &mut F,
    name: &str,
    number: u64,
) -> Result<Printable, Refusal>
    ensures { (stopper : Change StopperState) → Unchanged stopper → IsWork (unrank name.now number)
        (files_change F.content F.faults F.last_fault files.old files.new) stopper result }
{
    let problem = problem_of(alloc, files, name)?;
    let count = problem.shape.count();
    if number >= count {
        return Err(Refusal::Range(count));
    }
    or_refusal(written(alloc, &problem.shape, number))
}

/// The problem of a file.
pub(crate) fn problem_of<F: Files>(
    alloc: Global,
    files: &mut F,
    name: &str,
) -> Result<Problem, Refusal>
    ensures { IsProblemOf name.now (files_change F.content F.faults F.last_fault files.old files.new) result }
{
    let bytes = match load(alloc, files, name, MOST_PROBLEM) {
        Ok(bytes) => bytes,
        Err(LoadError::Failed) => return Err(Refusal::ReadFault),
        Err(LoadError::NoMemory) => return Err(Refusal::NoMemory),
    };
    match problem_toml::read(alloc, bytes.as_slice()) {
        Ok(problem) => Ok(problem),
        Err(error) => {
            if let ProblemError::NoMemory = error {
                return Err(Refusal::NoMemory);
            }
            Err(Refusal::Problem(error))
        }
    }
}

/// The number of a tree, on a line.
fn numbered(alloc: Global, shape: &Shape, tree: &Tree) -> Result<Printable, NoMemory>
    requires { IsTrue (is_tree_of shape.now tree.now) }
    ensures status { IfOk result (λ printed. code_of printed.status ≡ 0) }
    ensures text { IfOk result (λ printed. printed.text.items ≡ number_line (number_of shape.now (tree_view tree.now))) }
    ensures shares { IfOk result (λ printed. printed.shares ≡ []) }
{
    let Ok(number) = shape.number(tree) else {
        unreachable!();
    };
    let line = format!(in alloc; "number {number}\n")?;
    Ok(Printable {
        status: Status::Done,
        text: Vec::from_slice(alloc, line.as_bytes())?,
        shares: Shares::new(0),
    })
}

/// The tree of a number, on a line.
fn written(alloc: Global, shape: &Shape, number: u64) -> Result<Printable, NoMemory>
    requires { number < tree_count shape.now }
    ensures status { IfOk result (λ printed. code_of printed.status ≡ 0) }
    ensures text { IfOk result (λ printed. printed.text.items ≡ tree_line (tree_of shape.now number)) }
    ensures shares { IfOk result (λ printed. printed.shares ≡ []) }
{
    let mut text = Vec::new(alloc);
    write_text(&shape.tree(number), &mut text)?;
    text.push(b'\n')?;
    Ok(Printable {
        status: Status::Done,
        text,
        shares: Shares::new(0),
    })
}
