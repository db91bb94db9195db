//! The table, its seats and its rule.

ghost use Rattle.std.specs.Prelude.{◌≡◌, ℕ, ◌<◌, ◌^◌, length, slice_index};
ghost use Rattle.factor_table.specs.KeyPlaces.{words_of};
ghost use Rattle.factor_table.specs.Factors.{sizes_of};

use crate::layout::Layout;
use crate::parameters::Parameters;
use atomic_table::{Join, Play, Seat, Split, Table, TableRule};
use std::alloc::Global;
use std::collections::LinkedList;

/// A step of a seat, as contracts see it. The code never makes a value of this type.
pub enum Move {
    Load { place: usize, found: u64 },
    Fill { place: usize },
    Split,
    Join,
}

/// What a seat of the table knows, and the steps that it made, as contracts see it. The code never makes a value of
/// this type.
pub struct View {
    pub parameters: Parameters,
    pub known: LinkedList<usize>,
    pub moves: LinkedList<Move>,
    pub joined_away: bool,
}

/// The rule of the words of the table.
pub struct FactorRule;

impl TableRule<(), View, Parameters> for FactorRule {
    ghost use Rattle.factor_table.specs.Rule.{TableHolds, opening_view};

    ghost holds = { TableHolds };

    ghost first = { opening_view };
}

pub(crate) struct Look;

impl Play<(), View> for Look {
    ghost use Rattle.factor_table.specs.Rule.{Looks};

    ghost then = { Looks };
}

pub(crate) struct Fill;

impl Play<(), View> for Fill {
    ghost use Rattle.factor_table.specs.Rule.{Fills};

    ghost then = { Fills };
}

pub(crate) struct Divide;

impl Split<View> for Divide {
    ghost use Rattle.factor_table.specs.Rule.{divided, new_view};

    ghost left = { divided };

    ghost right = { new_view };
}

pub(crate) struct Gather;

impl Join<View> for Gather {
    ghost use Rattle.factor_table.specs.Rule.{joined, spent};

    ghost both = { joined };

    ghost spent = { spent };
}

pub(crate) type Words = Table<(), View, Parameters, FactorRule, Global>;

/// The factors of a sum, each computed once, by whichever worker needs it first.
///
/// The rule of `specs/Rule.antt` ties each word to its key, and holds between any two steps of all seats.
#[derive(Drop)]
pub struct FactorTable {
    pub(crate) table: Words,
    pub(crate) parameters: Parameters,
    pub(crate) layout: Layout,
    ghost told: { table.shared.key ≡ parameters },
    ghost no_slots: { table.shared.table_id.slots ≡ 0 },
    ghost laid_out: { layout.sizes ≡ sizes_of parameters },
    ghost counted: { table.shared.table_id.words ≡ words_of (sizes_of parameters) },
    ghost moduli_limited: { (index : ℕ) → index < length parameters.moduli
        → slice_index parameters.moduli index < 2 ^ 62 },
}

/// The seat of one worker at a [`FactorTable`].
#[derive(Drop)]
pub struct FactorSeat {
    pub(crate) seat: Seat<(), View>,
    ghost no_slot: { length seat.me.1 ≡ 0 },
}
