// The owners of the blocks of a round, which a claimer gives when the round ends.
ghost use Rattle.std.specs.Prelude.{◌≡◌, ℕ, ◌<◌, ◌≤◌, ◌==◌, length, replicate, slice_index, slice_set, count_by, IfOk};
ghost use Rattle.claim_table.specs.Counts.{occurrences};
ghost use Rattle.claim_table.specs.Claims.{given};

use crate::claimer::Block;
use lists::NoMemory;
use std::alloc::Global;
use std::marker::Model;

/// For each block of a round the worker that owns it. A clause sees the list of these workers.
#[derive(Debug, Drop)]
pub struct Owners {
    workers: Vec<u32>,
}

impl Model for Owners {
    ghost use Rattle.std.specs.Prelude.{◌≤◌, ℕ, List, length};

    ghost Value = { List ℕ };

    ghost view = { λ o. o.workers.items };

    ghost invariant = { λ o. length o.workers.items ≤ 1024 };
}

impl Owners {
    /// Owners for 1 to 1,024 blocks. At first each block has the owner 0.
    ///
    /// # Errors
    ///
    /// `NoMemory` if there is no memory for the list.
    pub fn new(alloc: Global, blocks: u32) -> Result<Owners, NoMemory>
        requires { (0 < blocks) × (blocks ≤ 1024) }
        ensures { IfOk result (λ o. o ≡ replicate blocks 0) }
    {
        let workers = Vec::from_elem(alloc, 0, blocks as usize).map_err(|_| NoMemory)?;
        Ok(Owners { workers })
    }

    /// The number of blocks.
    pub fn blocks(&self) -> u32
        ensures { result ≡ length self.now }
    {
        self.workers.len() as u32
    }

    /// The worker that owns this block.
    pub fn owner(&self, block: Block) -> u32
        requires { block.number < length self.now }
        ensures { result ≡ slice_index self.now block.number }
    {
        self.workers[block.number as usize]
    }

    /// The number of blocks that this worker owns.
    pub fn share(&self, worker: u32) -> u64
        ensures { result ≡ count_by (λ w. w == worker) self.now }
    {
        self.workers.iter().filter(|w| **w == worker).count() as u64
    }

    /// Makes the worker the owner of this block. All other owners stay.
    pub fn set(&mut self, block: Block, worker: u32)
        requires { block.number < length self.old }
        ensures { self.new ≡ slice_set self.old block.number worker }
    {
        self.workers[block.number as usize] = worker;
    }
    /// Makes the worker the owner of each of these blocks. All other owners stay.
    pub fn give(&mut self, taken: &[u32], worker: u32)
        requires { (b : ℕ) → 0 < occurrences b taken.now → b < length self.old }
        ensures len { length self.new ≡ length self.old }
        ensures owners { (b : ℕ) → b < length self.old
            → slice_index self.new b ≡ given (occurrences b taken.now) worker (slice_index self.old b) }
    {
        for block in taken {
            self.set(Block { number: *block }, worker);
        }
    }
}
