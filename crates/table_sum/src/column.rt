//! The words of a table for one of its moduli.

ghost use Rattle.std.specs.Prelude.{◌≡◌, ◌<◌, ◌≤◌, length};
ghost use Rattle.factor_table.specs.Factors.{modulus_in};
ghost use Rattle.factor_table.specs.Seats.{parameters_of};

use factor_table::{FactorSeat, FactorTable};
use residue::{Modulus, NoUnit, Setup};

/// The words of a table for one of its moduli.
#[derive(Drop)]
pub(crate) struct Column<'a> {
    table: &'a FactorTable,
    /// The modulus.
    pub(crate) modulus: &'a Modulus,
    pub(crate) index: u8,
    ghost above: { 1 < modulus.now },
    ghost within: { index < length (parameters_of table.now).moduli },
    ghost few_classes: { length (parameters_of table.now).classes ≤ 512 },
    ghost is_modulus: { modulus.now ≡ modulus_in (parameters_of table.now) index },
}

impl<'a> Column<'a> {
    ghost use Rattle.std.specs.Prelude.{◌≡◌, ◌<◌, ◌≤◌, length};
    ghost use Rattle.factor_table.specs.Seats.{parameters_of};

    /// The words of a table for the modulus at an index.
    pub(crate) fn of(table: &'a FactorTable, index: u8) -> Column<'a>
        requires index { index < length (parameters_of table.now).moduli }
        requires classes { length (parameters_of table.now).classes ≤ 512 }
        ensures table { result.table.now ≡ table.now }
        ensures index { result.index ≡ index }
    {
        let modulus = table.parameters().moduli.get(index as usize);
        let _ = modulus.get();
        Column {
            table,
            modulus,
            index,
        }
    }
}

impl Column<'_> {
    ghost use Rattle.std.specs.Prelude.{◌≡◌, ℕ, ◌*◌, ◌%◌, ◌^◌, ◌<◌, ◌≤◌, ◌∷◌, [], length, pos, OnErr};
    ghost use Rattle.arithmetic.specs.Fractions.{fraction, IsResidue};
    ghost use Rattle.localisation.specs.Weights.{tangent_product};
    ghost use Rattle.localisation.specs.EdgeFraction.{edge_fraction};
    ghost use Rattle.localisation.specs.VertexFraction.{plain_vertex};
    ghost use Rattle.localisation.specs.ClassValue.{class_edge, class_vertex};
    ghost use Rattle.vertex_factor.specs.Ends.{end, flag_fraction};
    ghost use Rattle.factor_table.specs.declared.key.Key.{Key};
    ghost use Rattle.factor_table.specs.Factors.{class_at, tip_fraction, IsKeyOf};
    ghost use Rattle.factor_table.specs.Seats.{parameters_of, IsSeatOf, Knows};
    ghost use Rattle.table_sum.specs.Words.{MayGive, IsLater, LacksUnit};

    /// The weights.
    #[inline]
    pub(crate) fn setup(&self) -> &Setup
        ensures { result.now ≡ (parameters_of self.now.table.now).setup }
    {
        &self.table.parameters().setup
    }

    /// The product of two residues. Products over edges and vertices begin with 1, and a factor 1 costs nothing.
    #[inline]
    pub(crate) fn times(&self, x: u64, y: u64) -> u64
        requires x_below { x < self.now.modulus.now }
        requires y_below { y < self.now.modulus.now }
        ensures value { result ≡ (x * y) % self.now.modulus.now }
        ensures below { result < self.now.modulus.now }
    {
        let _ = &self.modulus;
        if x == 1 {
            y
        } else if y == 1 {
            x
        } else {
            self.modulus.mul(x, y)
        }
    }

    /// The power of a residue; the power 0 is 1. Most powers that are asked for are by 0 or 1, and cost nothing.
    #[inline]
    pub(crate) fn power(&self, x: u64, exponent: u64) -> u64
        requires { x < self.now.modulus.now }
        ensures value { result ≡ (x ^ exponent) % self.now.modulus.now }
        ensures below { result < self.now.modulus.now }
    {
        let _ = &self.modulus;
        if exponent == 0 {
            1
        } else if exponent == 1 {
            x
        } else {
            self.modulus.pow(x, exponent)
        }
    }

    /// The factor of the edge of degree `a` between vertices of the colours `i` and `j`. The seat knows its word then.
    #[inline]
    pub(crate) fn edge(&self, seat: &mut FactorSeat, i: u8, j: u8, a: u8) -> Result<u64, NoUnit>
        requires seat { IsSeatOf seat.old self.now.table.now }
        requires key { IsKeyOf (parameters_of self.now.table.now) (Key.Edge i j a) }
        ensures value { MayGive self.now.modulus.now
            (edge_fraction (parameters_of self.now.table.now).setup i j a) result }
        ensures seat { IsLater self.now.table.now seat.old seat.new }
        ensures refused { OnErr result (LacksUnit (parameters_of self.now.table.now) self.now.index) }
        ensures knows { Knows seat.new self.now.table.now (Key.Edge i j a) self.now.index }
    {
        self.table.edge(seat, i, j, a, self.index)
    }

    /// The flag of an edge of degree `a` at a vertex of colour `c`, whose other end has the colour `u`.
    #[inline]
    pub(crate) fn flag(&self, seat: &mut FactorSeat, c: u8, u: u8, a: u8) -> Result<u64, NoUnit>
        requires seat { IsSeatOf seat.old self.now.table.now }
        requires key { IsKeyOf (parameters_of self.now.table.now) (Key.Flag c u a) }
        ensures value { MayGive self.now.modulus.now
            (flag_fraction (parameters_of self.now.table.now).setup c u a) result }
        ensures seat { IsLater self.now.table.now seat.old seat.new }
        ensures refused { OnErr result (LacksUnit (parameters_of self.now.table.now) self.now.index) }
    {
        self.table.flag(seat, c, u, a, self.index)
    }

    /// The tip of an edge of degree `a` at a vertex of colour `c`, whose other end has the colour `u`.
    #[inline]
    pub(crate) fn tip(&self, seat: &mut FactorSeat, c: u8, u: u8, a: u8) -> Result<u64, NoUnit>
        requires seat { IsSeatOf seat.old self.now.table.now }
        requires key { IsKeyOf (parameters_of self.now.table.now) (Key.Tip c u a) }
        ensures value { MayGive self.now.modulus.now
            (tip_fraction (parameters_of self.now.table.now).setup c u a) result }
        ensures seat { IsLater self.now.table.now seat.old seat.new }
        ensures refused { OnErr result (LacksUnit (parameters_of self.now.table.now) self.now.index) }
    {
        self.table.tip(seat, c, u, a, self.index)
    }

    /// The factor of a vertex of colour `c` without marks and with two ends, each the colour of the neighbour and the
    /// degree of the edge.
    #[inline]
    pub(crate) fn pair(
        &self,
        seat: &mut FactorSeat,
        c: u8,
        first: (u8, u8),
        second: (u8, u8),
    ) -> Result<u64, NoUnit>
        requires seat { IsSeatOf seat.old self.now.table.now }
        requires key { IsKeyOf (parameters_of self.now.table.now) (Key.Pair c first.0 first.1 second.0 second.1) }
        ensures value { MayGive self.now.modulus.now (plain_vertex (parameters_of self.now.table.now).setup c
            (end first.0 first.1 ∷ end second.0 second.1 ∷ []) 0) result }
        ensures seat { IsLater self.now.table.now seat.old seat.new }
        ensures refused { OnErr result (LacksUnit (parameters_of self.now.table.now) self.now.index) }
    {
        self.table
            .pair(seat, c, first.0, first.1, second.0, second.1, self.index)
    }

    /// The part of the class at an index at the edge of degree `a` between vertices of the colours `i` and `j`.
    #[inline]
    pub(crate) fn class_edge(
        &self,
        seat: &mut FactorSeat,
        class: u16,
        i: u8,
        j: u8,
        a: u8,
    ) -> Result<u64, NoUnit>
        requires seat { IsSeatOf seat.old self.now.table.now }
        requires key { IsKeyOf (parameters_of self.now.table.now) (Key.ClassEdge class i j a) }
        ensures value { MayGive self.now.modulus.now (class_edge (parameters_of self.now.table.now).setup
            (class_at (parameters_of self.now.table.now) class) i j a) result }
        ensures seat { IsLater self.now.table.now seat.old seat.new }
        ensures refused { OnErr result (LacksUnit (parameters_of self.now.table.now) self.now.index) }
    {
        self.table.class_edge(seat, class, i, j, a, self.index)
    }

    /// The part of the class at an index at a vertex of colour `c` with `s` edges.
    #[inline]
    pub(crate) fn class_vertex(
        &self,
        seat: &mut FactorSeat,
        class: u16,
        c: u8,
        s: u8,
    ) -> Result<u64, NoUnit>
        requires seat { IsSeatOf seat.old self.now.table.now }
        requires key { IsKeyOf (parameters_of self.now.table.now) (Key.ClassVertex class c s) }
        ensures value { MayGive self.now.modulus.now (class_vertex (parameters_of self.now.table.now).setup
            (class_at (parameters_of self.now.table.now) class) c s) result }
        ensures seat { IsLater self.now.table.now seat.old seat.new }
        ensures refused { OnErr result (LacksUnit (parameters_of self.now.table.now) self.now.index) }
    {
        self.table.class_vertex(seat, class, c, s, self.index)
    }

    /// The product of the differences of the weight of `c` to those of the other colours.
    #[inline]
    pub(crate) fn tangent(&self, seat: &mut FactorSeat, c: u8) -> u64
        requires seat { IsSeatOf seat.old self.now.table.now }
        requires key { IsKeyOf (parameters_of self.now.table.now) (Key.Tangent c) }
        ensures value { IsResidue self.now.modulus.now
            (fraction (tangent_product (parameters_of self.now.table.now).setup c) (pos 1)) result }
        ensures seat { IsLater self.now.table.now seat.old seat.new }
    {
        self.table.tangent(seat, c, self.index)
    }
}
