// The contract of a job: work that is cut into blocks, of which any worker may take any.
ghost use Rattle.std.specs.Prelude.{◌≡◌, ℕ, ◌<◌, List, [], ◌∷◌, ◌++◌, Option, Some};
ghost use Rattle.claim_table.specs.Counts.{nothing_bad};
ghost use Rattle.worker_pool.specs.Rounds.{at_most};

use claim_table::Block;

/// Work that is cut into blocks, of which each may hold bad numbers.
///
/// What a job means is its number of blocks, each block's least bad number or none, which parts
/// are ready for it, and which lists of pairs a part stands for. A pair is a block and the value
/// of `seen` that `work` was handed with it. A part need not store such a list.
pub trait Job: Sync {
    /// What one worker gathers.
    type Part: Send;

    // The number of blocks.
    ghost blocks: { Self → ℕ };
    // For each block its least bad number, or none.
    ghost least_bad: { Self → ℕ → Option ℕ };
    // `work` may be handed this part.
    ghost is_ready: { Self → Self.Part → Type 0 };
    // The part stands for these pairs.
    ghost stands_for: { Self → Self.Part → List (ℕ × ℕ) → Type 0 };

    /// Works one block. It answers the block's least bad number that is at most `seen`, or `None`
    /// if there is none: numbers above `seen` may be passed over. It takes no memory.
    fn work(&self, part: &mut Self::Part, block: Block, seen: u64) -> Option<u64>
        requires block { block.number < blocks self.now }
        requires ready { is_ready self.now part.old }
        ensures ready { is_ready self.now part.new }
        ensures stands { (pairs : List (ℕ × ℕ)) → stands_for self.now part.old pairs
            → stands_for self.now part.new (pairs ++ (block.number, seen) ∷ []) }
        ensures answer { result ≡ at_most seen (least_bad self.now block.number) };

    // Each bad number is below 2^64 - 1.
    ghost bad_below: { (job : Self) (block bad : ℕ) → block < blocks job → least_bad job block ≡ Some bad
        → bad < nothing_bad };
}
