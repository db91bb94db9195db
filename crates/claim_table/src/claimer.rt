// The contract of the claims of a round, which each representation meets, and what it speaks of.
ghost use Rattle.std.specs.Prelude.{◌≡◌, ℕ, ◌+◌, ◌<◌, ◌≤◌, true, length, slice_index_or, map, All, IfOk, IfSome, IfNone};
ghost use Rattle.claim_table.specs.declared.claimer.Plan.{Plan};
ghost use Rattle.claim_table.specs.declared.claimer.Record.{Record};
ghost use Rattle.claim_table.specs.Counts.{occurrences, nothing_bad, least_of};
ghost use Rattle.claim_table.specs.Claims.{plan, fresh, with_taken, made_dry, with_reported, with_seen, all_reported, IsLegal};

use crate::owners::Owners;
use lists::NoMemory;
use std::alloc::Global;
use std::collections::LinkedList;

/// No bad number: 2^64 - 1, which is never reported.
pub const NOTHING_BAD: u64 = u64::MAX;

/// A block of a round, by its number.
#[derive(Clone, Copy, Debug, PartialEq, Eq)]
pub struct Block {
    /// The index of the block in its round, from 0 on.
    pub number: u32,
}

/// How many blocks a round has, and how many workers: what a board means to a contract.
#[derive(Clone, Copy, Debug, PartialEq, Eq)]
pub struct Plan {
    /// The number of blocks, from 1 to 1,024.
    pub blocks: u32,
    /// The number of workers, from 1 to 64.
    pub workers: u32,
}

/// What a worker did in a round: what a seat means to a contract. The code never makes a
/// value of it.
pub struct Record {
    /// The worker's number.
    pub worker: u32,
    /// The blocks that its takes answered, in order.
    pub taken: LinkedList<u32>,
    /// Its last take answered no block.
    pub dry: bool,
    /// The bad numbers that it reported, in order.
    pub reported: LinkedList<u64>,
    /// The least bad numbers that it saw, in order.
    pub seens: LinkedList<u64>,
}

/// What a round came to.
#[derive(Debug, Drop)]
pub struct Closed {
    /// For each block the worker that took it.
    pub owners: Owners,
    /// The least number that was reported bad, or [`NOTHING_BAD`] if none was.
    pub least_bad: u64,
}

/// A seat of one worker at a board that all workers of a round share.
///
/// What a board means is its [`Plan`], which no call changes. What a seat means is the board that
/// it sits at and its worker's [`Record`]. Each call leaves the parts of the record that its
/// contract does not change. No call waits for another thread, and only `start` takes memory.
pub trait Claimer {
    /// What the threads of a round share.
    type Board: Sync;

    // The numbers of blocks and workers.
    ghost plan_of: { Self.Board → Plan };
    // What the seat's worker did.
    ghost record_of: { Self → Record };
    // The seat is one of this board.
    ghost sits_at: { Self → Self.Board → Type 0 };
    // The seat holds no blocks in its hand, on the way from the board to its taken list.
    ghost is_free: { Self → Type 0 };
    // What a take that answered no block shows of the seat before it and after it.
    ghost found_none: { Self → Self → Type 0 };

    /// A board for 1 to 1,024 blocks and 1 to 64 workers, and its seats in the order of their
    /// workers. All memory of the round's claims is taken here.
    ///
    /// # Errors
    ///
    /// `NoMemory` if there is no memory for the board or the seats.
    fn start(alloc: Global, blocks: u32, workers: u32) -> Result<(Self::Board, Vec<Self>), NoMemory>
        requires blocks { (0 < blocks) × (blocks ≤ 1024) }
        requires workers { (0 < workers) × (workers ≤ 64) }
        ensures board { IfOk result (λ r. plan_of r.0 ≡ plan blocks workers) }
        ensures seats { IfOk result (λ r. length r.1.items ≡ workers) }
        ensures seated { IfOk result (λ r. All (λ s. sits_at s r.0 × is_free s) r.1.items) }
        ensures fresh { IfOk result (λ r. (k : ℕ) (d : Self) → k < workers
            → record_of (slice_index_or r.1.items k d) ≡ fresh k) };

    /// The number of the seat's worker.
    fn worker(&self) -> u32
        ensures { result ≡ (record_of self.now).worker };

    /// Takes a block that nobody took. `None` if there is none left for this seat, which is dry
    /// then.
    fn take(&mut self, board: &Self::Board) -> Option<Block>
        requires seat { sits_at self.old board.now }
        requires free { is_free self.old }
        ensures seat { sits_at self.new board.now }
        ensures free { is_free self.new }
        ensures some { IfSome result (λ b. record_of self.new ≡ with_taken (record_of self.old) b.number) }
        ensures once { IfSome result (λ b. (b.number < (plan_of board.now).blocks)
            × (occurrences b.number (record_of self.old).taken ≡ 0)) }
        ensures none { IfNone result (record_of self.new ≡ made_dry (record_of self.old)) }
        ensures none_left { IfNone result (found_none self.old self.new) }
        ensures room { length (record_of self.new).taken ≤ (plan_of board.now).blocks };

    /// Reports a bad number, which is below [`NOTHING_BAD`].
    fn report_bad(&mut self, board: &Self::Board, number: u64)
        requires seat { sits_at self.old board.now }
        requires number { number < nothing_bad }
        ensures seat { sits_at self.new board.now }
        ensures free { is_free self.old → is_free self.new }
        ensures reported { record_of self.new ≡ with_reported (record_of self.old) number };

    /// The least number that anyone reported so far, or [`NOTHING_BAD`] if nobody did.
    fn least_bad(&mut self, board: &Self::Board) -> u64
        requires { sits_at self.old board.now }
        ensures seat { sits_at self.new board.now }
        ensures free { is_free self.old → is_free self.new }
        ensures seen { record_of self.new ≡ with_seen (record_of self.old) result }
        ensures least { All (λ number. result ≤ number) (record_of self.old).reported };

    /// Ends the round, with all seats of the board in the order of their workers, each of them dry.
    fn close(board: Self::Board, seats: Vec<Self>) -> Closed
        requires all { length seats.items ≡ (plan_of board).workers }
        requires seated { All (λ s. sits_at s board × is_free s × ((record_of s).dry ≡ true)) seats.items }
        requires in_order { (k : ℕ) (d : Self) → k < length seats.items
            → (record_of (slice_index_or seats.items k d)).worker ≡ k }
        ensures legal { IsLegal (plan_of board) result.owners (map (λ s. (record_of s).taken) seats.items) }
        ensures least { result.least_bad ≡ least_of (all_reported (map record_of seats.items)) }
        ensures seen { All (λ s. All (λ number. result.least_bad ≤ number) (record_of s).seens) seats.items };

    // A board has at most 1,024 blocks.
    ghost few_blocks: { (board : Self.Board) → (plan_of board).blocks ≤ 1024 };
}
