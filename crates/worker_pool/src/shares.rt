// The counts of blocks that each worker has worked, over all rounds, which only a round can raise.
ghost use Rattle.std.specs.Prelude.{◌≡◌, ℕ, ◌<◌, ◌≤◌, ◌^◌, length, replicate, slice_index, All, IsTrue, ◌↔◌, []};
ghost use Rattle.worker_pool.specs.Shares.{GrewBy};

use claim_table::Owners;
use std::marker::Model;

/// For each worker the number of blocks that it has worked, over all rounds so far. A clause sees
/// the list of these numbers, of which there are at most 64.
///
/// It is made by [`Shares::new`] alone, cannot be cloned, and only `run_round` raises a share. So
/// shares are the numbers of blocks that were really worked.
#[derive(Debug, Drop)]
pub struct Shares {
    counts: [u64; 64],
    workers: usize,
}

impl Model for Shares {
    ghost use Rattle.std.specs.Prelude.{◌≡◌, ◌≤◌, ℕ, List, length, take};

    ghost Value = { List ℕ };

    ghost view = { λ s. take s.workers s.counts };

    ghost invariant = { λ s. (length s.counts ≡ 64) × (s.workers ≤ 64) };
}

impl Shares {
    /// The share 0 for each of at most 64 workers.
    pub fn new(workers: u32) -> Shares
        requires { workers ≤ 64 }
        ensures { result ≡ replicate workers 0 }
    {
        Shares {
            counts: [0; 64],
            workers: workers as usize,
        }
    }

    /// The number of workers.
    pub fn len(&self) -> usize
        ensures { result ≡ length self.now }
    {
        self.workers
    }

    /// Whether there is no worker.
    pub fn is_empty(&self) -> bool
        ensures { IsTrue result ↔ (self.now ≡ []) }
    {
        self.workers == 0
    }

    /// The share of the worker with this index.
    pub fn get(&self, place: usize) -> u64
        requires { place < length self.now }
        ensures { result ≡ slice_index self.now place }
    {
        self.counts[..self.workers][place]
    }

    // Each worker has worked the blocks that it owns.
    pub(crate) fn raise(&mut self, owners: &Owners)
        requires room { All (λ share. share ≤ 2 ^ 62) self.old }
        requires blocks { length owners.now ≤ 1024 }
        ensures { GrewBy owners.now self.old self.new }
    {
        for worker in 0..self.workers {
            self.counts[worker] += owners.share(worker as u32);
        }
    }
}
