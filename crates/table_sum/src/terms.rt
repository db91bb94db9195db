//! The sum over the terms of an integral at a tree, from words of the table.

ghost use Rattle.std.specs.Prelude.{◌≡◌, ◌<◌, ◌≤◌, length, All, OnErr};
ghost use Rattle.contribution.specs.Terms.{sum_of_terms, IsTermFor};
ghost use Rattle.factor_table.specs.Seats.{parameters_of, IsSeatOf};
ghost use Rattle.table_sum.specs.Words.{MayGive, IsLater, LacksUnit};
ghost use Rattle.table_sum.specs.Trees.{IsShapeIn};
ghost use Rattle.table_sum.specs.Classes.{classes_of_terms, AreClassesFrom};

use crate::class_values::term_value;
use crate::column::Column;
use crate::vertices::vertices_residue;
use factor_table::FactorSeat;
use residue::{NoUnit, Term};
use tree_parts::TreeParts;

/// The residue of the sum over the terms of an integral of the factors of all vertices under the term's exponents,
/// times the term's value. The classes of the terms are in the table's list from the index `first` on.
///
/// # Errors
/// `NoUnit` if a word that is asked for is no unit.
pub(crate) fn terms_residue(
    column: &Column,
    seat: &mut FactorSeat,
    parts: &TreeParts,
    terms: &[Term],
    first: u16,
) -> Result<u64, NoUnit>
    requires seat { IsSeatOf seat.old column.now.table.now }
    requires shape { IsShapeIn (parameters_of column.now.table.now) parts.now.shape }
    requires terms { All (IsTermFor parts.now.shape.marks) terms.now }
    requires indices { AreClassesFrom (parameters_of column.now.table.now).classes first (classes_of_terms terms.now) }
    ensures value { MayGive column.now.modulus.now
        (sum_of_terms (parameters_of column.now.table.now).setup parts.now.tree terms.now) result }
    ensures seat { IsLater column.now.table.now seat.old seat.new }
    ensures refused { OnErr result (LacksUnit (parameters_of column.now.table.now) column.now.index) }
{
    let mut sum = column.modulus.of_u64(0);
    let mut index = first;
    for term in terms {
        let vertices = vertices_residue(column, seat, parts, term)?;
        let value = term_value(column, seat, parts, term, index)?;
        let factor = column.times(vertices, value);
        sum = column.modulus.add(sum, factor);
        index += term.classes.len() as u16;
    }
    Ok(sum)
}
