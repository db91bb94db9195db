//! The factors of the edges of a tree, from words of the table.

ghost use Rattle.std.specs.Prelude.{◌<◌, IfOk, OnErr};
ghost use Rattle.arithmetic.specs.Fractions.{Fraction, times};
ghost use Rattle.localisation.specs.Contribution.{edge_factors};
ghost use Rattle.factor_table.specs.Seats.{parameters_of, IsSeatOf};
ghost use Rattle.table_sum.specs.Words.{MayGive, IsLater, LacksUnit};
ghost use Rattle.table_sum.specs.Trees.{IsShapeIn, KnowsEdges};

use crate::column::Column;
use factor_table::FactorSeat;
use residue::NoUnit;
use tree_parts::TreeParts;

/// The residue of the product of the factors of all edges of a tree. Every word is asked for, also after one that is no
/// unit, so that the seat knows each of them in every case.
///
/// # Errors
/// `NoUnit` if the word of an edge is no unit.
pub(crate) fn edges_residue(
    column: &Column,
    seat: &mut FactorSeat,
    parts: &TreeParts,
) -> Result<u64, NoUnit>
    requires seat { IsSeatOf seat.old column.now.table.now }
    requires shape { IsShapeIn (parameters_of column.now.table.now) parts.now.shape }
    ensures value { MayGive column.now.modulus.now
        (edge_factors (parameters_of column.now.table.now).setup parts.now.tree) result }
    ensures seat { IsLater column.now.table.now seat.old seat.new }
    ensures refused { OnErr result (LacksUnit (parameters_of column.now.table.now) column.now.index) }
    ensures edges { KnowsEdges seat.new column.now.table.now parts.now.tree column.now.index }
{
    let mut product = Ok(column.modulus.of_u64(1));
    let edges = parts.edges();
    for edge in edges {
        let factor = column.edge(seat, edge.first, edge.second, edge.degree);
        product = times(column, product, factor);
    }
    product
}

/// The product of two answers.
#[inline]
fn times(
    column: &Column,
    first: Result<u64, NoUnit>,
    second: Result<u64, NoUnit>,
) -> Result<u64, NoUnit>
    requires first_below { IfOk first (λ x. x < column.now.modulus.now) }
    requires second_below { IfOk second (λ x. x < column.now.modulus.now) }
    ensures product { (f g : Fraction) → MayGive column.now.modulus.now f first
        → MayGive column.now.modulus.now g second → MayGive column.now.modulus.now (times f g) result }
    ensures refused { OnErr first (LacksUnit (parameters_of column.now.table.now) column.now.index)
        → OnErr second (LacksUnit (parameters_of column.now.table.now) column.now.index)
        → OnErr result (LacksUnit (parameters_of column.now.table.now) column.now.index) }
{
    Ok(column.times(first?, second?))
}
