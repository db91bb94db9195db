//! The flags at a vertex.

ghost use Rattle.std.specs.Prelude.{◌≡◌, ◌≢◌, ◌<◌, ◌≤◌, length, All, IfOk, OnErr};
ghost use Rattle.arithmetic.specs.Fractions.{IsResidue};
ghost use Rattle.vertex_factor.specs.Ends.{ends_of};
ghost use Rattle.factor_table.specs.Seats.{parameters_of, IsSeatOf};
ghost use Rattle.table_sum.specs.Words.{MayGive, IsLater, LacksUnit};
ghost use Rattle.table_sum.specs.Ends.{IsEndIn, product_of_flags, sum_of_flags, power_at_ends};

use crate::column::Column;
use factor_table::FactorSeat;
use residue::NoUnit;

/// Residues of what the flags at a vertex give.
#[derive(Clone, Copy)]
struct Flags {
    /// The product of the flags.
    product: u64,
    /// Their sum.
    sum: u64,
}

/// The residue of `T^(s-1)` times the product of the flags at a vertex of `s` ends and the power of their sum.
///
/// # Errors
/// `NoUnit` if the word of a flag is no unit.
pub(crate) fn power_at_ends(
    column: &Column,
    seat: &mut FactorSeat,
    c: u8,
    ends: &[(u8, u8)],
    exponent: u64,
) -> Result<u64, NoUnit>
    requires seat { IsSeatOf seat.old column.now.table.now }
    requires c_within { c < length (parameters_of column.now.table.now).setup }
    requires ends_some { 1 ≤ length ends.now }
    requires ends_at { All (IsEndIn (parameters_of column.now.table.now) c) ends.now }
    ensures value { MayGive column.now.modulus.now
        (power_at_ends (parameters_of column.now.table.now).setup c (ends_of ends.now) exponent) result }
    ensures seat { IsLater column.now.table.now seat.old seat.new }
    ensures refused { OnErr result (LacksUnit (parameters_of column.now.table.now) column.now.index) }
{
    let flags = flags_over(column, seat, c, ends)?;
    let tangent = column.tangent(seat, c);
    let tangents = column.power(tangent, ends.len() as u64 - 1);
    let at_ends = column.times(tangents, flags.product);
    let sums = column.power(flags.sum, exponent);
    Ok(column.times(at_ends, sums))
}

/// The residues of the product and the sum of the flags of all ends.
fn flags_over(
    column: &Column,
    seat: &mut FactorSeat,
    c: u8,
    ends: &[(u8, u8)],
) -> Result<Flags, NoUnit>
    requires seat { IsSeatOf seat.old column.now.table.now }
    requires c_within { c < length (parameters_of column.now.table.now).setup }
    requires ends_at { All (IsEndIn (parameters_of column.now.table.now) c) ends.now }
    ensures product { IfOk result (λ flags. IsResidue column.now.modulus.now
        (product_of_flags (parameters_of column.now.table.now).setup c (ends_of ends.now)) flags.product) }
    ensures sum { IfOk result (λ flags. IsResidue column.now.modulus.now
        (sum_of_flags (parameters_of column.now.table.now).setup c (ends_of ends.now)) flags.sum) }
    ensures seat { IsLater column.now.table.now seat.old seat.new }
    ensures refused { OnErr result (LacksUnit (parameters_of column.now.table.now) column.now.index) }
{
    let mut flags = Flags {
        product: column.modulus.of_u64(1),
        sum: column.modulus.of_u64(0),
    };
    for (colour, degree) in ends {
        let flag = column.flag(seat, c, *colour, *degree)?;
        flags = Flags {
            product: column.times(flags.product, flag),
            sum: column.modulus.add(flags.sum, flag),
        };
    }
    Ok(flags)
}
