//! The factors of the vertices of a tree, from words of the table.

ghost use Rattle.std.specs.Prelude.{◌≡◌, ℕ, ◌<◌, ◌≤◌, OnErr};
ghost use Rattle.localisation.specs.ClassValue.{exponent_of};
ghost use Rattle.localisation.specs.Contribution.{vertex_factors};
ghost use Rattle.contribution.specs.Terms.{vertex_at};
ghost use Rattle.regrouping.specs.TreeParts.{plain_vertices};
ghost use Rattle.factor_table.specs.Seats.{parameters_of, IsSeatOf};
ghost use Rattle.table_sum.specs.Words.{MayGive, IsLater, LacksUnit};
ghost use Rattle.table_sum.specs.Trees.{IsShapeIn, plain_at};

use crate::column::Column;
use crate::psi_free::is_psi_free;
use crate::vertex::{plain_residue, vertex_residue};
use contribution::exponents_of;
use factor_table::FactorSeat;
use residue::{NoUnit, Term};
use tree_parts::TreeParts;

/// The residue of the product of the factors of all vertices, under the exponents of a term. In a term without psi
/// classes no exponent is looked for.
///
/// # Errors
/// `NoUnit` if a word that is asked for is no unit.
pub(crate) fn vertices_residue(
    column: &Column,
    seat: &mut FactorSeat,
    parts: &TreeParts,
    term: &Term,
) -> Result<u64, NoUnit>
    requires seat { IsSeatOf seat.old column.now.table.now }
    requires shape { IsShapeIn (parameters_of column.now.table.now) parts.now.shape }
    requires exponents { (j : ℕ) → exponent_of term.now j ≤ 151 }
    ensures value { MayGive column.now.modulus.now
        (vertex_factors (parameters_of column.now.table.now).setup term.now parts.now.tree) result }
    ensures seat { IsLater column.now.table.now seat.old seat.new }
    ensures refused { OnErr result (LacksUnit (parameters_of column.now.table.now) column.now.index) }
{
    if is_psi_free(term) {
        plain_vertices_residue(column, seat, parts)
    } else {
        psi_vertices_residue(column, seat, parts, term)
    }
}

/// The residue of the product of the factors of all vertices without exponents.
fn plain_vertices_residue(
    column: &Column,
    seat: &mut FactorSeat,
    parts: &TreeParts,
) -> Result<u64, NoUnit>
    requires seat { IsSeatOf seat.old column.now.table.now }
    requires shape { IsShapeIn (parameters_of column.now.table.now) parts.now.shape }
    ensures value { MayGive column.now.modulus.now
        (plain_vertices (parameters_of column.now.table.now).setup parts.now.tree) result }
    ensures seat { IsLater column.now.table.now seat.old seat.new }
    ensures refused { OnErr result (LacksUnit (parameters_of column.now.table.now) column.now.index) }
{
    let mut product = column.modulus.of_u64(1);
    for vertex in 0..parts.vertices() {
        let factor = at_plain_vertex(column, seat, parts, vertex)?;
        product = column.times(product, factor);
    }
    Ok(product)
}

/// The residue of the factor of one vertex without exponents.
fn at_plain_vertex(
    column: &Column,
    seat: &mut FactorSeat,
    parts: &TreeParts,
    vertex: u8,
) -> Result<u64, NoUnit>
    requires seat { IsSeatOf seat.old column.now.table.now }
    requires shape { IsShapeIn (parameters_of column.now.table.now) parts.now.shape }
    requires vertex_below { vertex < parts.now.tree.vertices }
    ensures value { MayGive column.now.modulus.now
        (plain_at (parameters_of column.now.table.now).setup parts.now.tree vertex) result }
    ensures seat { IsLater column.now.table.now seat.old seat.new }
    ensures refused { OnErr result (LacksUnit (parameters_of column.now.table.now) column.now.index) }
{
    let ends = parts.ends_at(vertex);
    let colour = parts.colour(vertex);
    let marks = parts.marks_at(vertex);
    plain_residue(column, seat, colour, ends, marks.len() as u64)
}

/// The residue of the product of the factors of all vertices, under the exponents of a term.
fn psi_vertices_residue(
    column: &Column,
    seat: &mut FactorSeat,
    parts: &TreeParts,
    term: &Term,
) -> Result<u64, NoUnit>
    requires seat { IsSeatOf seat.old column.now.table.now }
    requires shape { IsShapeIn (parameters_of column.now.table.now) parts.now.shape }
    requires exponents { (j : ℕ) → exponent_of term.now j ≤ 151 }
    ensures value { MayGive column.now.modulus.now
        (vertex_factors (parameters_of column.now.table.now).setup term.now parts.now.tree) result }
    ensures seat { IsLater column.now.table.now seat.old seat.new }
    ensures refused { OnErr result (LacksUnit (parameters_of column.now.table.now) column.now.index) }
{
    let mut product = column.modulus.of_u64(1);
    for vertex in 0..parts.vertices() {
        let factor = at_vertex(column, seat, parts, term, vertex)?;
        product = column.times(product, factor);
    }
    Ok(product)
}

/// The residue of the factor of one vertex, under the exponents of a term.
fn at_vertex(
    column: &Column,
    seat: &mut FactorSeat,
    parts: &TreeParts,
    term: &Term,
    vertex: u8,
) -> Result<u64, NoUnit>
    requires seat { IsSeatOf seat.old column.now.table.now }
    requires shape { IsShapeIn (parameters_of column.now.table.now) parts.now.shape }
    requires exponents { (j : ℕ) → exponent_of term.now j ≤ 151 }
    requires vertex_below { vertex < parts.now.tree.vertices }
    ensures value { MayGive column.now.modulus.now
        (vertex_at (parameters_of column.now.table.now).setup term.now parts.now.tree vertex) result }
    ensures seat { IsLater column.now.table.now seat.old seat.new }
    ensures refused { OnErr result (LacksUnit (parameters_of column.now.table.now) column.now.index) }
{
    let ends = parts.ends_at(vertex);
    let colour = parts.colour(vertex);
    let exponents = exponents_of(term, parts.marks_at(vertex));
    vertex_residue(column, seat, colour, ends, exponents.as_slice())
}
