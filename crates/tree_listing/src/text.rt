//! The lines of a tree.

ghost use Rattle.std.specs.Prelude.{◌≡◌, ◌++◌, ◌<◌, length, OnOk};
ghost use Rattle.trees.specs.TreeNumbers.{tree_of};
ghost use Rattle.problem.specs.Problems.{view as problem_view};
ghost use Rattle.problem.specs.Sums.{count_of};
ghost use Rattle.list_job.specs.Entries.{IsEntryOf};
ghost use Rattle.tree_listing.specs.Values.{said};
ghost use Rattle.tree_listing.specs.Texts.{value_line, contribution_lines, tree_lines};

use decorated_tree::write_text;
use itoa::Buffer;
use list_job::{Entry, NO_RESIDUE};
use lists::NoMemory;
use problem::Problem;
use report::{append_integral_line, append_labelled_line};

/// Appends the lines of the tree of an entry.
pub(crate) fn append_tree(
    text: &mut Vec<u8>,
    problem: &Problem,
    entry: &Entry,
) -> Result<(), NoMemory>
    requires entry { IsEntryOf (problem_view problem.now) entry.now.number entry.now }
    requires within { entry.now.number < count_of (problem_view problem.now) }
    ensures { OnOk result (text.new.items ≡ text.old.items ++ tree_lines (problem_view problem.now) entry.now.number) }
{
    append_labelled_line(text, "tree", entry.number)?;
    write_text(&problem.shape.tree(entry.number), text)?;
    text.push(b'\n')?;
    for integral in 0..problem.integrals.len() {
        append_contribution(text, problem, entry, integral)?;
    }
    Ok(())
}

/// Appends the lines of one integral.
fn append_contribution(
    text: &mut Vec<u8>,
    problem: &Problem,
    entry: &Entry,
    integral: usize,
) -> Result<(), NoMemory>
    requires entry { IsEntryOf (problem_view problem.now) entry.now.number entry.now }
    requires integral { integral < length problem.now.integrals }
    ensures { OnOk result (text.new.items ≡ text.old.items
        ++ contribution_lines (problem_view problem.now) (tree_of problem.now.shape entry.now.number) integral) }
{
    append_integral_line(text, problem.integrals.len(), integral)?;
    let moduli = problem.moduli.as_slice();
    for (index, modulus) in moduli.iter().enumerate() {
        append_value(
            text,
            modulus.get(),
            entry.values[integral * moduli.len() + index],
        )?;
    }
    Ok(())
}

/// Appends the line of one modulus: a residue, or `none`.
#[tactic(auto, using(std::proofs::Common::append_assoc))]
fn append_value(text: &mut Vec<u8>, modulus: u64, value: u64) -> Result<(), NoMemory>
    ensures { OnOk result (text.new.items ≡ text.old.items ++ value_line modulus (said value)) }
{
    text.extend_from_slice(b"residue ")?;
    text.extend_from_slice(Buffer::new().format(modulus).as_bytes())?;
    text.extend_from_slice(b" ")?;
    if value == NO_RESIDUE {
        text.extend_from_slice(b"none")?;
    } else {
        text.extend_from_slice(Buffer::new().format(value).as_bytes())?;
    }
    text.extend_from_slice(b"\n")?;
    Ok(())
}
