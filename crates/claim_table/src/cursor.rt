// Claims by one cursor, to which all workers add: the rule of its words, its seats and their calls.
ghost use Rattle.std.specs.Prelude.{◌≡◌, ℕ, ◌+◌, ◌<◌, ◌≤◌, true, List, [], ◌∷◌, length, map, slice_index_or, vec_len, vec_capacity, All, IfOk, IfSome, IfNone};
ghost use Rattle.claim_table.specs.Counts.{occurrences, least_of};
ghost use Rattle.claim_table.specs.Claims.{with_taken, made_dry, all_reported, IsLegal};
ghost use Rattle.claim_table.specs.Cursor.{only, opening_view};

use crate::claimer::{Block, Claimer, Closed, NOTHING_BAD, Plan, Record};
use crate::owners::Owners;
use crate::view::{Deal, Enter, Gather, View};
use atomic_table::{Play, Seat, Table, TableRule};
use lists::NoMemory;
use std::alloc::Global;

#[cfg(test)]
mod tests;

// The rule of the cursor's words.
pub struct CursorRule;

impl TableRule<(), View<Record>, Plan> for CursorRule {
    ghost use Rattle.claim_table.specs.Cursor.{CursorHolds, opening_view};

    ghost holds = { CursorHolds };

    ghost first = { opening_view };
}

struct TakeNext;

impl Play<(), View<Record>> for TakeNext {
    ghost use Rattle.claim_table.specs.Cursor.{Takes};

    ghost then = { Takes };
}

struct ReportNumber;

impl Play<(), View<Record>> for ReportNumber {
    ghost use Rattle.claim_table.specs.Cursor.{Reports};

    ghost then = { Reports };
}

struct SeeLeast;

impl Play<(), View<Record>> for SeeLeast {
    ghost use Rattle.claim_table.specs.Cursor.{Sees};

    ghost then = { Sees };
}

/// The claims of a round by one cursor: the least block that nobody took.
///
/// The board has two words, the cursor and the least number that was reported bad. The rule of
/// `specs/Cursor.antt` ties them to what the seats did, and holds between any two steps.
#[derive(Drop)]
pub struct Cursor {
    table: CursorTable,
    plan: Plan,
    owners: Owners,
    ghost limits: { (plan.blocks ≤ 1024) × (0 < plan.workers) × (plan.workers ≤ 64) },
    ghost planned: { table.shared.key ≡ plan },
    ghost words: { table.shared.table_id.words ≡ 2 },
    ghost no_slots: { table.shared.table_id.slots ≡ 0 },
    ghost owned: { length owners ≡ plan.blocks },
}

/// The seat of one worker at a [`Cursor`].
#[derive(Drop)]
pub struct CursorSeat {
    seat: Seat<(), View<Record>>,
    number: u32,
    dry: bool,
    // The blocks taken so far, with room for all of the round, so that no take needs memory. What
    // the table knows of them exists in proofs alone.
    taken: Vec<u32>,
    ghost one_record: { length seat.me.0.records ≡ 1 },
    ghost no_slot: { length seat.me.1 ≡ 0 },
    ghost numbered: { (only seat.me.0).worker ≡ number },
    ghost dries: { (only seat.me.0).dry ≡ dry },
    ghost takes: { (only seat.me.0).taken ≡ taken.items },
    ghost few: { vec_len taken ≤ seat.me.0.blocks },
    ghost below: { (b : ℕ) → 0 < occurrences b taken.items → b < seat.me.0.blocks },
    ghost room: { seat.me.0.blocks ≤ vec_capacity taken },
}

impl Claimer for CursorSeat {
    ghost use Rattle.claim_table.specs.Seats.{board_plan, seat_record, IsSeatOf, FoundNone};

    type Board = Cursor;

    ghost plan_of = { board_plan };

    ghost record_of = { seat_record };

    ghost sits_at = { IsSeatOf };

    ghost is_free = { λ _. Unit {0} };

    ghost found_none = { FoundNone };

    /// One split of a seat for each worker.
    fn start(
        alloc: Global,
        blocks: u32,
        workers: u32,
    ) -> Result<(Cursor, Vec<CursorSeat>), NoMemory> {
        let plan = Plan { blocks, workers };
        let owners = Owners::new(alloc, blocks)?;
        let mut seats = Vec::with_capacity(alloc, workers as usize)?;
        let (table, mut dealer) = open(alloc, &plan)?;
        for number in 0..workers {
            let taken = Vec::with_capacity(alloc, blocks as usize)?;
            let seat = table.shared.split_seat::<Deal>(&mut dealer);
            seats.push_reserved(CursorSeat {
                seat,
                number,
                dry: false,
                taken,
            });
        }
        let board = Cursor {
            table,
            plan,
            owners,
        };
        Ok((board, seats))
    }

    fn worker(&self) -> u32 {
        self.number
    }

    /// One `fetch_add`, and no step if the seat is dry already. `None` exactly if the seat
    /// was dry or the step found the cursor at the end or past it.
    fn take(&mut self, board: &Cursor) -> Option<Block>
        requires seat { IsSeatOf self.old board.now }
        ensures seat { IsSeatOf self.new board.now }
        ensures some { IfSome result (λ b. seat_record self.new ≡ with_taken (seat_record self.old) b.number) }
        ensures once { IfSome result (λ b. (b.number < (board_plan board.now).blocks)
            × (occurrences b.number (seat_record self.old).taken ≡ 0)) }
        ensures none { IfNone result (seat_record self.new ≡ made_dry (seat_record self.old)) }
        ensures none_left { IfNone result (FoundNone self.old self.new) }
        ensures room { length (seat_record self.new).taken ≤ (board_plan board.now).blocks }
        ensures idle { (seat_record self.old).dry ≡ true → result ≡ None }
    {
        if self.dry {
            return None;
        }
        let found = board
            .table
            .shared
            .fetch_add::<TakeNext>(&mut self.seat, 0, 1);
        if found >= board.plan.blocks as u64 {
            self.dry = true;
            return None;
        }
        let number = found as u32;
        self.taken.push_reserved(number);
        Some(Block { number })
    }

    /// One `fetch_min`.
    fn report_bad(&mut self, board: &Cursor, number: u64) {
        board
            .table
            .shared
            .fetch_min::<ReportNumber>(&mut self.seat, 1, number);
    }

    /// One load.
    fn least_bad(&mut self, board: &Cursor) -> u64 {
        board.table.shared.load::<SeeLeast>(&mut self.seat, 1)
    }

    /// One load by a new seat, and one join for each seat. Its clauses are the trait's, written
    /// again since a method that takes a `Vec<Self>` cannot inherit them.
    fn close(board: Cursor, seats: Vec<CursorSeat>) -> Closed
        requires all { length seats.items ≡ (board_plan board).workers }
        requires seated { All (λ s. IsSeatOf s board × Unit {0} × ((seat_record s).dry ≡ true)) seats.items }
        requires in_order { (k : ℕ) (d : CursorSeat) → k < length seats.items
            → (seat_record (slice_index_or seats.items k d)).worker ≡ k }
        ensures legal { IsLegal (board_plan board) result.owners (map (λ s. (seat_record s).taken) seats.items) }
        ensures least { result.least_bad ≡ least_of (all_reported (map seat_record seats.items)) }
        ensures seen { All (λ s. All (λ number. result.least_bad ≤ number) (seat_record s).seens) seats.items }
    {
        let Cursor {
            table,
            plan: _,
            mut owners,
        } = board;
        let (_, mut all) = table.shared.load_new_seat::<Enter>(0);
        for seat in seats {
            let CursorSeat {
                seat,
                number,
                dry: _,
                taken,
            } = seat;
            owners.give(&taken, number);
            table.shared.join_seat::<Gather>(&mut all, seat);
        }
        let closed = table.close_with(all);
        let least_bad = closed.word(1);
        closed.free();
        Closed { owners, least_bad }
    }

    ghost few_blocks = { λ board. board.limits.0 };
}

type CursorTable = Table<(), View<Record>, Plan, CursorRule, Global>;

// The table of a round in which nothing was taken, and a seat that stands for all workers.
fn open(alloc: Global, plan: &Plan) -> Result<(CursorTable, Seat<(), View<Record>>), NoMemory>
    requires { (plan.now.blocks ≤ 1024) × (plan.now.workers ≤ 64) }
    ensures table { IfOk result (λ r. (r.0.shared.key ≡ plan.now) × (r.0.shared.table_id.words ≡ 2)
        × (r.0.shared.table_id.slots ≡ 0)) }
    ensures dealer { IfOk result (λ r. (r.1.table_id ≡ r.0.shared.table_id) × (r.1.me ≡ (opening_view plan.now, []))) }
{
    Table::of_words(alloc, &[0, NOTHING_BAD], plan).map_err(|_| NoMemory)
}
