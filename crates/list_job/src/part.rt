//! What one worker lists.

ghost use Rattle.std.specs.Prelude.{◌≡◌, ℕ, ◌<◌, ◌≤◌, [], None, replicate, IfOk};
ghost use Rattle.std.specs.Option.{option_map};
ghost use Rattle.factor_table.specs.Seats.{IsSeatOf};
ghost use Rattle.sum_job.specs.Parts.{JobView};
ghost use Rattle.list_job.specs.Parts.{room_of, entry_at, size_of, IsReady, StandsFor};

use crate::entry::Entry;
use factor_table::FactorSeat;
use lists::NoMemory;
use std::alloc::Global;

/// The entries of the blocks that one worker worked, and its seat at the table of factors.
#[derive(Drop)]
pub struct ListPart {
    pub(crate) seat: FactorSeat,
    // One place for each number, counted from the first of the job.
    pub(crate) entries: Vec<Option<Entry>>,
}

impl ListPart {
    /// The part of a worker that worked no block: `room` empty places, for so many numbers from the first of a job on.
    ///
    /// # Errors
    /// `NoMemory` if there is no memory for the places.
    pub fn new(alloc: Global, room: u32, seat: FactorSeat) -> Result<ListPart, NoMemory>
        ensures seat { IfOk result (λ part. part.seat ≡ seat) }
        ensures room { IfOk result (λ part. room_of part ≡ room) }
        ensures places { IfOk result (λ part. (place : ℕ) → entry_at part place ≡ None) }
        ensures empty { IfOk result (λ part. (job : JobView) → size_of job ≤ room → IsSeatOf seat job.table
            → IsReady job part × StandsFor job part []) }
    {
        let entries = Vec::from_elem(alloc, None, room as usize)?;
        Ok(ListPart { seat, entries })
    }

    /// The entry at a place below the part's room, or `None` exactly if the place is empty. It takes no memory.
    pub fn entry(&self, place: u32) -> Option<&Entry>
        requires { place < room_of self.now }
        ensures { option_map (λ entry. entry.now) result ≡ entry_at self.now place }
    {
        self.entries[place as usize].as_ref()
    }
}
