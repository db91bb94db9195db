//! The factor of a vertex, from words of the table.

ghost use Rattle.std.specs.Prelude.{◌≡◌, ◌≢◌, ◌+◌, ◌-◌, ◌<◌, ◌≤◌, ◌∷◌, [], length, sum, All, OnErr};
ghost use Rattle.localisation.specs.VertexFraction.{vertex_fraction, plain_vertex};
ghost use Rattle.vertex_factor.specs.Ends.{end, ends_of};
ghost use Rattle.factor_table.specs.Seats.{parameters_of, IsSeatOf};
ghost use Rattle.table_sum.specs.Words.{MayGive, IsLater, LacksUnit};
ghost use Rattle.table_sum.specs.Ends.{IsEndIn};

use crate::column::Column;
use crate::flags::power_at_ends;
use factor_table::FactorSeat;
use residue::NoUnit;
use vertex_factor::multinomial;

/// The residue of the factor of a vertex of colour `c` with the ends `ends` and one mark for each of `exponents`, which
/// are the exponents of the psi classes there. There is at least one end, and there are at most 12 exponents.
///
/// # Errors
/// `NoUnit` if a word that is asked for is no unit. The vertex may have a factor all the same.
pub(crate) fn vertex_residue(
    column: &Column,
    seat: &mut FactorSeat,
    c: u8,
    ends: &[(u8, u8)],
    exponents: &[u8],
) -> Result<u64, NoUnit>
    requires seat { IsSeatOf seat.old column.now.table.now }
    requires c_within { c < length (parameters_of column.now.table.now).setup }
    requires ends_some { 1 ≤ length ends.now }
    requires ends_limited { length ends.now ≤ 10 }
    requires ends_at { All (IsEndIn (parameters_of column.now.table.now) c) ends.now }
    requires marks_limited { length exponents.now ≤ 12 }
    ensures value { MayGive column.now.modulus.now
        (vertex_fraction (parameters_of column.now.table.now).setup c (ends_of ends.now) exponents.now) result }
    ensures seat { IsLater column.now.table.now seat.old seat.new }
    ensures refused { OnErr result (LacksUnit (parameters_of column.now.table.now) column.now.index) }
{
    if sum(exponents) == 0 {
        plain_residue(column, seat, c, ends, exponents.len() as u64)
    } else {
        psi_residue(column, seat, c, ends, exponents)
    }
}

/// The sum of at most 12 exponents.
fn sum(exponents: &[u8]) -> u64
    requires { length exponents.now ≤ 12 }
    ensures { result ≡ sum exponents.now }
{
    exponents.iter().map(|k| *k as u64).sum()
}

/// The residue of the factor of a vertex with so many marks, none with a psi class.
///
/// # Errors
/// `NoUnit` if a word that is asked for is no unit.
pub(crate) fn plain_residue(
    column: &Column,
    seat: &mut FactorSeat,
    c: u8,
    ends: &[(u8, u8)],
    marks: u64,
) -> Result<u64, NoUnit>
    requires seat { IsSeatOf seat.old column.now.table.now }
    requires c_within { c < length (parameters_of column.now.table.now).setup }
    requires ends_some { 1 ≤ length ends.now }
    requires ends_limited { length ends.now ≤ 10 }
    requires ends_at { All (IsEndIn (parameters_of column.now.table.now) c) ends.now }
    requires marks_limited { marks ≤ 12 }
    ensures value { MayGive column.now.modulus.now
        (plain_vertex (parameters_of column.now.table.now).setup c (ends_of ends.now) marks) result }
    ensures seat { IsLater column.now.table.now seat.old seat.new }
    ensures refused { OnErr result (LacksUnit (parameters_of column.now.table.now) column.now.index) }
{
    let special = ends.len() as u64 + marks;
    if special >= 3 {
        return power_at_ends(column, seat, c, ends, special - 3);
    }
    match ends {
        [first, second, ..] => column.pair(seat, c, *first, *second),
        [only, ..] if marks == 0 => leaf_residue(column, seat, c, *only),
        _ => Ok(column.modulus.of_u64(1)),
    }
}

/// The residue of the factor of a vertex with one end and no mark: the tip, with its sign changed.
fn leaf_residue(
    column: &Column,
    seat: &mut FactorSeat,
    c: u8,
    only: (u8, u8),
) -> Result<u64, NoUnit>
    requires seat { IsSeatOf seat.old column.now.table.now }
    requires c_within { c < length (parameters_of column.now.table.now).setup }
    requires end { IsEndIn (parameters_of column.now.table.now) c only }
    ensures value { MayGive column.now.modulus.now
        (plain_vertex (parameters_of column.now.table.now).setup c (end only.0 only.1 ∷ []) 0) result }
    ensures seat { IsLater column.now.table.now seat.old seat.new }
    ensures refused { OnErr result (LacksUnit (parameters_of column.now.table.now) column.now.index) }
{
    let tip = column.tip(seat, c, only.0, only.1)?;
    let zero = column.modulus.of_u64(0);
    Ok(column.modulus.sub(zero, tip))
}

/// The residue of the factor of a vertex whose exponents have a sum above 0.
fn psi_residue(
    column: &Column,
    seat: &mut FactorSeat,
    c: u8,
    ends: &[(u8, u8)],
    exponents: &[u8],
) -> Result<u64, NoUnit>
    requires seat { IsSeatOf seat.old column.now.table.now }
    requires c_within { c < length (parameters_of column.now.table.now).setup }
    requires ends_some { 1 ≤ length ends.now }
    requires ends_limited { length ends.now ≤ 10 }
    requires ends_at { All (IsEndIn (parameters_of column.now.table.now) c) ends.now }
    requires marks_limited { length exponents.now ≤ 12 }
    requires exponents_some { sum exponents.now ≢ 0 }
    ensures value { MayGive column.now.modulus.now
        (vertex_fraction (parameters_of column.now.table.now).setup c (ends_of ends.now) exponents.now) result }
    ensures seat { IsLater column.now.table.now seat.old seat.new }
    ensures refused { OnErr result (LacksUnit (parameters_of column.now.table.now) column.now.index) }
{
    let exponent = sum(exponents);
    let special = ends.len() as u64 + exponents.len() as u64;
    if special == 2 {
        let tip = column.tip(seat, c, ends[0].0, ends[0].1)?;
        return Ok(column.modulus.pow(tip, exponent));
    }
    if special - 3 < exponent {
        return Ok(column.modulus.of_u64(0));
    }
    let at_ends = power_at_ends(column, seat, c, ends, special - 3 - exponent)?;
    let ways = column.modulus.of_u64(multinomial(special - 3, exponents));
    Ok(column.modulus.mul(at_ends, ways))
}
