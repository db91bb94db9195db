//! The values of classes and terms at a tree, from words of the table.

ghost use Rattle.std.specs.Prelude.{◌≡◌, ◌+◌, ◌<◌, ◌≤◌, length, All, OnErr};
ghost use Rattle.arithmetic.specs.Fractions.{product_of_fractions};
ghost use Rattle.localisation.specs.ClassValue.{class_edge, class_vertex, class_value, term_value, at_edges, at_vertices};
ghost use Rattle.classes.specs.Classes.{IsClassFor, IsPowerFor};
ghost use Rattle.class_factor.specs.Powers.{value_of_powers};
ghost use Rattle.class_factor.specs.Vertices.{class_at_vertex};
ghost use Rattle.factor_table.specs.declared.key.Key.{Key};
ghost use Rattle.factor_table.specs.Factors.{HasParts, class_at, IsKeyOf};
ghost use Rattle.factor_table.specs.Seats.{parameters_of, IsSeatOf};
ghost use Rattle.table_sum.specs.Words.{MayGive, IsLater, LacksUnit};
ghost use Rattle.table_sum.specs.Trees.{IsShapeIn};
ghost use Rattle.table_sum.specs.Classes.{classes_of_powers, classes_of_term, AreClassesFrom};

use crate::column::Column;
use class_factor::whole_ratio;
use factor_table::{FactorSeat, has_parts};
use residue::{Class, NoUnit, Power, Term};
use tree_parts::TreeParts;

/// The residue of the value of a term at a tree: the coefficient times the product of the values of its classes, each
/// to its power. The classes are in the table's list from the index `first` on.
///
/// # Errors
/// `NoUnit` if the word of a class at an edge or a vertex is no unit.
pub(crate) fn term_value(
    column: &Column,
    seat: &mut FactorSeat,
    parts: &TreeParts,
    term: &Term,
    first: u16,
) -> Result<u64, NoUnit>
    requires seat { IsSeatOf seat.old column.now.table.now }
    requires shape { IsShapeIn (parameters_of column.now.table.now) parts.now.shape }
    requires classes { All (IsPowerFor parts.now.shape.marks) term.now.classes }
    requires indices { AreClassesFrom (parameters_of column.now.table.now).classes first (classes_of_term term.now) }
    ensures value { MayGive column.now.modulus.now
        (term_value (parameters_of column.now.table.now).setup term.now parts.now.tree) result }
    ensures seat { IsLater column.now.table.now seat.old seat.new }
    ensures refused { OnErr result (LacksUnit (parameters_of column.now.table.now) column.now.index) }
{
    let powers = powers_value(column, seat, parts, term.classes.as_slice(), first)?;
    let number = term.coefficient;
    let coefficient = column.modulus.of_i64(number);
    Ok(column.times(coefficient, powers))
}

/// The residue of the product of the values of classes, each to its power.
fn powers_value(
    column: &Column,
    seat: &mut FactorSeat,
    parts: &TreeParts,
    powers: &[Power],
    first: u16,
) -> Result<u64, NoUnit>
    requires seat { IsSeatOf seat.old column.now.table.now }
    requires shape { IsShapeIn (parameters_of column.now.table.now) parts.now.shape }
    requires classes { All (IsPowerFor parts.now.shape.marks) powers.now }
    requires indices { AreClassesFrom (parameters_of column.now.table.now).classes first (classes_of_powers powers.now) }
    ensures value { MayGive column.now.modulus.now
        (value_of_powers (parameters_of column.now.table.now).setup parts.now.tree powers.now) result }
    ensures seat { IsLater column.now.table.now seat.old seat.new }
    ensures refused { OnErr result (LacksUnit (parameters_of column.now.table.now) column.now.index) }
{
    let mut product = column.modulus.of_u64(1);
    let mut index = first;
    for power in powers {
        let value = class_value(column, seat, parts, &power.class, index)?;
        let at_power = column.power(value, power.power as u64);
        product = column.times(product, at_power);
        index += 1;
    }
    Ok(product)
}

/// The residue of the value of a class at a tree, of which the index is given.
fn class_value(
    column: &Column,
    seat: &mut FactorSeat,
    parts: &TreeParts,
    class: &Class,
    index: u16,
) -> Result<u64, NoUnit>
    requires seat { IsSeatOf seat.old column.now.table.now }
    requires shape { IsShapeIn (parameters_of column.now.table.now) parts.now.shape }
    requires class { IsClassFor parts.now.shape.marks class.now }
    requires index_within { index < length (parameters_of column.now.table.now).classes }
    requires index { class_at (parameters_of column.now.table.now) index ≡ class.now }
    ensures value { MayGive column.now.modulus.now
        (class_value (parameters_of column.now.table.now).setup class.now parts.now.tree) result }
    ensures seat { IsLater column.now.table.now seat.old seat.new }
    ensures refused { OnErr result (LacksUnit (parameters_of column.now.table.now) column.now.index) }
{
    if has_parts(class) {
        let at_edges = edge_parts(column, seat, parts, index)?;
        let at_vertices = vertex_parts(column, seat, parts, index)?;
        Ok(column.times(at_edges, at_vertices))
    } else {
        Ok(whole_ratio(column.setup(), class, parts, column.modulus).top)
    }
}

/// The residue of the product of the parts of a class at all edges.
fn edge_parts(
    column: &Column,
    seat: &mut FactorSeat,
    parts: &TreeParts,
    index: u16,
) -> Result<u64, NoUnit>
    requires seat { IsSeatOf seat.old column.now.table.now }
    requires shape { IsShapeIn (parameters_of column.now.table.now) parts.now.shape }
    requires index_within { index < length (parameters_of column.now.table.now).classes }
    requires class { HasParts (class_at (parameters_of column.now.table.now) index) }
    ensures value { MayGive column.now.modulus.now (product_of_fractions (at_edges (class_edge
        (parameters_of column.now.table.now).setup (class_at (parameters_of column.now.table.now) index))
        parts.now.tree)) result }
    ensures seat { IsLater column.now.table.now seat.old seat.new }
    ensures refused { OnErr result (LacksUnit (parameters_of column.now.table.now) column.now.index) }
{
    let mut product = column.modulus.of_u64(1);
    let edges = parts.edges();
    for edge in edges {
        let part = column.class_edge(seat, index, edge.first, edge.second, edge.degree)?;
        product = column.times(product, part);
    }
    Ok(product)
}

/// The residue of the product of the parts of a class at all vertices.
fn vertex_parts(
    column: &Column,
    seat: &mut FactorSeat,
    parts: &TreeParts,
    index: u16,
) -> Result<u64, NoUnit>
    requires seat { IsSeatOf seat.old column.now.table.now }
    requires shape { IsShapeIn (parameters_of column.now.table.now) parts.now.shape }
    requires index_within { index < length (parameters_of column.now.table.now).classes }
    requires class { HasParts (class_at (parameters_of column.now.table.now) index) }
    ensures value { MayGive column.now.modulus.now (product_of_fractions (at_vertices (class_at_vertex
        (parameters_of column.now.table.now).setup (class_at (parameters_of column.now.table.now) index)
        parts.now.tree) parts.now.tree)) result }
    ensures seat { IsLater column.now.table.now seat.old seat.new }
    ensures refused { OnErr result (LacksUnit (parameters_of column.now.table.now) column.now.index) }
{
    let mut product = column.modulus.of_u64(1);
    for vertex in 0..parts.vertices() {
        let valence = parts.ends_at(vertex).len() as u8;
        let part = vertex_part(column, seat, index, parts.colour(vertex), valence)?;
        product = column.times(product, part);
    }
    Ok(product)
}

/// The residue of the part of a class at a vertex of colour `c` with `valence` edges. At a leaf it is 1, and no word is
/// asked for.
fn vertex_part(
    column: &Column,
    seat: &mut FactorSeat,
    index: u16,
    c: u8,
    valence: u8,
) -> Result<u64, NoUnit>
    requires seat { IsSeatOf seat.old column.now.table.now }
    requires key { IsKeyOf (parameters_of column.now.table.now) (Key.ClassVertex index c valence) }
    ensures value { MayGive column.now.modulus.now (class_vertex (parameters_of column.now.table.now).setup
        (class_at (parameters_of column.now.table.now) index) c valence) result }
    ensures seat { IsLater column.now.table.now seat.old seat.new }
    ensures refused { OnErr result (LacksUnit (parameters_of column.now.table.now) column.now.index) }
{
    if valence == 1 {
        return Ok(column.modulus.of_u64(1));
    }
    column.class_vertex(seat, index, c, valence)
}
