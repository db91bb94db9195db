//! What one worker gathers.

ghost use Rattle.std.specs.Prelude.{◌≡◌, [], replicate};
ghost use Rattle.claim_table.specs.Counts.{nothing_bad};
ghost use Rattle.factor_table.specs.Seats.{IsSeatOf};
ghost use Rattle.sum_job.specs.Parts.{JobView, IsReady, StandsFor, KeepsJob};

use claim_table::NOTHING_BAD;
use factor_table::FactorSeat;

/// The sums of the blocks that one worker worked, and its seat at the table of factors.
#[derive(Drop)]
pub struct PartSum {
    /// The seat. It keeps what it knows when the part forgets its blocks.
    pub seat: FactorSeat,
    /// The residues of the sums, integral by integral and within one integral modulus by modulus. They mean nothing if
    /// a block had a bad number, or was passed over.
    pub sums: [u64; 64],
    /// The least bad number that was found, or 2^64 - 1 if none was.
    pub least: u64,
}

impl PartSum {
    /// The part of a worker that worked no block. It takes no memory.
    pub fn new(seat: FactorSeat) -> PartSum
        ensures seat { result.seat ≡ seat }
        ensures sums { result.sums ≡ replicate 64 0 }
        ensures least { result.least ≡ nothing_bad }
        ensures empty { (job : JobView) → KeepsJob job → IsSeatOf seat job.table
            → IsReady job result × StandsFor job result [] }
    {
        PartSum {
            seat,
            sums: [0; 64],
            least: NOTHING_BAD,
        }
    }

    /// Forgets all blocks that were worked, but nothing that the seat knows. It takes no memory.
    pub fn clear(&mut self)
        ensures seat { self.new.seat ≡ self.old.seat }
        ensures sums { self.new.sums ≡ replicate 64 0 }
        ensures least { self.new.least ≡ nothing_bad }
        ensures empty { (job : JobView) → KeepsJob job → IsSeatOf self.old.seat job.table
            → IsReady job self.new × StandsFor job self.new [] }
    {
        self.sums = [0; 64];
        self.least = NOTHING_BAD;
    }
}
