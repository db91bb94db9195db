//! What is told of one tree.

ghost use Rattle.std.specs.Prelude.{◌≡◌, ◌*◌, ◌-◌, ◌^◌, ◌<◌, [], IsTrue, length, get_or, slice_index};
ghost use Rattle.trees.specs.TreeNumbers.{tree_of};
ghost use Rattle.decorated_tree.specs.Trees.{tree_view, is_tree_of};
ghost use Rattle.localisation.specs.Contribution.{contribution};
ghost use Rattle.problem.specs.Problems.{view as problem_view};
ghost use Rattle.problem.specs.Sums.{count_of};
ghost use Rattle.factor_table.specs.Seats.{IsSeatOf};
ghost use Rattle.table_sum.specs.Words.{IsLater};
ghost use Rattle.table_sum.specs.Trees.{KnowsEdges};
ghost use Rattle.table_sum.specs.Sums.{problem_of, table_of, KnowsTree};
ghost use Rattle.list_job.specs.Entries.{no_residue, Tells, IsEntryOf};

use decorated_tree::Tree;
use factor_table::FactorSeat;
use range_sum::contribution;
use residue::NoUnit;
use table_sum::TableSum;
use tree_parts::TreeParts;

/// Stands in an entry where there is no residue: 2^64 - 1, which is above every modulus.
pub const NO_RESIDUE: u64 = u64::MAX;

/// The contribution of one tree, as it is listed.
#[derive(Clone, Copy, Debug, PartialEq, Eq, Drop)]
pub struct Entry {
    /// The number of the tree.
    pub number: u64,
    /// The residues of its contribution, integral by integral and within one integral modulus by modulus; and
    /// [`NO_RESIDUE`] where its bottom and the modulus have a common divisor above 1, and past the last.
    pub values: [u64; 64],
}

/// The entry of the tree of a number, which is below the number of trees of the problem. The table is asked first, so
/// that afterwards the seat knows the edges of the tree. It takes no memory.
pub(crate) fn entry_of_tree(sum: &TableSum, seat: &mut FactorSeat, number: u64) -> Entry
    requires seat { IsSeatOf seat.old (table_of sum.now) }
    requires within { number < count_of (problem_view (problem_of sum.now)) }
    ensures entry { IsEntryOf (problem_view (problem_of sum.now)) number result }
    ensures seat { IsLater (table_of sum.now) seat.old seat.new }
    ensures edges { KnowsTree (problem_view (problem_of sum.now)) (table_of sum.now) seat.new
        (tree_of (problem_of sum.now).shape number) }
{
    let problem = sum.problem();
    let tree = problem.shape.tree(number);
    let moduli = problem.moduli.len();
    let mut values = [NO_RESIDUE; 64];
    for place in 0..problem.integrals.len() * moduli {
        let integral = (place / moduli) as u8;
        values[place] = value(sum, seat, &tree, integral, (place % moduli) as u8);
    }
    Entry { number, values }
}

/// The residue of the contribution of a tree of the problem's shape to the integral at an index, modulo the modulus at
/// an index, or [`NO_RESIDUE`]. If the table has a word on the way that is no unit, the contribution is computed without
/// it.
fn value(sum: &TableSum, seat: &mut FactorSeat, tree: &Tree, integral: u8, modulus: u8) -> u64
    requires seat { IsSeatOf seat.old (table_of sum.now) }
    requires tree { IsTrue (is_tree_of (problem_of sum.now).shape tree.now) }
    requires integral { integral < length (problem_of sum.now).integrals }
    requires modulus { modulus < length (problem_of sum.now).moduli }
    ensures value { Tells (slice_index (problem_of sum.now).moduli modulus)
        (contribution (problem_of sum.now).setup (get_or (problem_of sum.now).integrals integral []) (tree_view tree.now))
        result }
    ensures seat { IsLater (table_of sum.now) seat.old seat.new }
    ensures edges { KnowsEdges seat.new (table_of sum.now) (tree_view tree.now) modulus }
{
    let problem = sum.problem();
    let parts = TreeParts::of(tree, problem.shape.r());
    match sum.tree_residue(seat, &parts, integral, modulus) {
        Ok(residue) => residue,
        Err(NoUnit) => match contribution(problem, integral, tree, modulus) {
            Ok(residue) => residue,
            Err(NoUnit) => NO_RESIDUE,
        },
    }
}
