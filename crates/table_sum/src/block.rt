//! Sums over blocks of numbers, through the table.

ghost use Rattle.std.specs.Prelude.{◌≡◌, ◌&&◌};

use crate::sum::{TableSum, class_count};
use decorated_tree::Tree;
use factor_table::FactorSeat;
use residue::NoUnit;
use tree_parts::TreeParts;

impl TableSum<'_> {
    ghost use Rattle.std.specs.Prelude.{◌≡◌, ℕ, ◌<◌, ◌≤◌, IsTrue, OnOk, OnErr, length, slice_index};
    ghost use Rattle.decorated_tree.specs.Trees.{tree_view, is_tree_of};
    ghost use Rattle.localisation.specs.Contribution.{contribution, partial_sum};
    ghost use Rattle.localisation.specs.Agreement.{NoneBad};
    ghost use Rattle.problem.specs.Problems.{view as problem_view};
    ghost use Rattle.problem.specs.Sums.{count_of, places_of, is_bad_of};
    ghost use Rattle.factor_table.specs.Seats.{IsSeatOf};
    ghost use Rattle.table_sum.specs.Words.{IsLater, LacksSomeUnit};
    ghost use Rattle.table_sum.specs.Sums.{problem_of, table_of, AreSumsBelow, GrowBy, KnowsTree, KnowsTrees};

    /// Adds the contributions of the trees of the numbers from `first` to `stop - 1` to the sums, which are integral by
    /// integral and within one integral modulus by modulus. No tree costs a division, and no memory is taken.
    /// Afterwards the seat knows the words of all edges of these trees for each modulus, whatever the answer is.
    ///
    /// # Errors
    /// `NoUnit` if a word that is asked for is no unit, so only if for some modulus the fraction of a key of the table has
    /// no residue, or one over `n!` for some number `n` of vertices. The sums are as they were, and it is not known
    /// whether a number is bad.
    pub fn add_block(
        &self,
        seat: &mut FactorSeat,
        first: u64,
        stop: u64,
        sums: &mut [u64; 64],
    ) -> Result<(), NoUnit>
        requires seat { IsSeatOf seat.old (table_of self.now) }
        requires order { first < stop }
        requires within { stop ≤ count_of (problem_view (problem_of self.now)) }
        requires below { AreSumsBelow (problem_of self.now) sums.old }
        ensures added { OnOk result (GrowBy (problem_of self.now)
            (partial_sum (problem_of self.now).setup (problem_of self.now).shape first stop) sums.old sums.new) }
        ensures none { OnOk result (NoneBad (is_bad_of (problem_view (problem_of self.now))) first stop) }
        ensures rest { OnOk result ((place : ℕ) → places_of (problem_view (problem_of self.now)) ≤ place
            → slice_index sums.new place ≡ slice_index sums.old place) }
        ensures refused { OnErr result (sums.new ≡ sums.old) }
        ensures long { length sums.new ≡ 64 }
        ensures cause { OnErr result (LacksSomeUnit (table_of self.now)) }
        ensures seat { IsLater (table_of self.now) seat.old seat.new }
        ensures edges { KnowsTrees (problem_view (problem_of self.now)) (table_of self.now) seat.new first stop }
    {
        let mut grown = *sums;
        self.add_trees(seat, first, stop, &mut grown)?;
        *sums = grown;
        Ok(())
    }

    /// The same, but with sums of which nothing is said after `NoUnit`.
    fn add_trees(
        &self,
        seat: &mut FactorSeat,
        first: u64,
        stop: u64,
        sums: &mut [u64; 64],
    ) -> Result<(), NoUnit>
        requires seat { IsSeatOf seat.old (table_of self.now) }
        requires order { first < stop }
        requires within { stop ≤ count_of (problem_view (problem_of self.now)) }
        requires below { AreSumsBelow (problem_of self.now) sums.old }
        ensures added { OnOk result (GrowBy (problem_of self.now)
            (partial_sum (problem_of self.now).setup (problem_of self.now).shape first stop) sums.old sums.new) }
        ensures rest { (place : ℕ) → places_of (problem_view (problem_of self.now)) ≤ place
            → slice_index sums.new place ≡ slice_index sums.old place }
        ensures cause { OnErr result (LacksSomeUnit (table_of self.now)) }
        ensures seat { IsLater (table_of self.now) seat.old seat.new }
        ensures edges { KnowsTrees (problem_view (problem_of self.now)) (table_of self.now) seat.new first stop }
    {
        let mut every = true;
        let mut tree = self.problem.shape.tree(first);
        for k in first..stop {
            let added = self.add_tree(seat, &tree, sums);
            every = both(every, added.is_ok());
            if k + 1 < stop {
                self.problem.shape.next(k, &mut tree);
            }
        }
        if every { Ok(()) } else { Err(NoUnit) }
    }

    /// Adds the contributions of a tree of the problem's shape to the sums, of which nothing but their limits is said
    /// after `NoUnit`.
    fn add_tree(
        &self,
        seat: &mut FactorSeat,
        tree: &Tree,
        sums: &mut [u64; 64],
    ) -> Result<(), NoUnit>
        requires seat { IsSeatOf seat.old (table_of self.now) }
        requires tree { IsTrue (is_tree_of (problem_of self.now).shape tree.now) }
        requires below { AreSumsBelow (problem_of self.now) sums.old }
        ensures below { AreSumsBelow (problem_of self.now) sums.new }
        ensures added { OnOk result (GrowBy (problem_of self.now)
            (λ terms. contribution (problem_of self.now).setup terms (tree_view tree.now)) sums.old sums.new) }
        ensures rest { (place : ℕ) → places_of (problem_view (problem_of self.now)) ≤ place
            → slice_index sums.new place ≡ slice_index sums.old place }
        ensures cause { OnErr result (LacksSomeUnit (table_of self.now)) }
        ensures seat { IsLater (table_of self.now) seat.old seat.new }
        ensures edges { KnowsTree (problem_view (problem_of self.now)) (table_of self.now) seat.new (tree_view tree.now) }
    {
        let parts = TreeParts::of(tree, self.problem.shape.r());
        let starts = self.starts(seat, &parts);
        let mut place = 0;
        let mut first = 0;
        for integral in 0..self.problem.integrals.len() {
            for modulus in 0..self.problem.moduli.len() {
                let start = starts[modulus];
                let residue = self.residue(
                    seat,
                    &parts,
                    start,
                    integral as u8,
                    first,
                    modulus as u8,
                )?;
                let modulo = self.problem.moduli.get(modulus);
                sums[place] = modulo.add(sums[place], residue);
                place += 1;
            }
            first += class_count(self.problem.integrals.get(integral).as_slice());
        }
        Ok(())
    }
}

/// Whether both hold.
fn both(first: bool, second: bool) -> bool
    ensures { result ≡ (first && second) }
{
    first && second
}
