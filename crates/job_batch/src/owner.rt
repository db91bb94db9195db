// The calls of worker 0 at the deque of a batch.

ghost use Rattle.std.specs.Prelude.{◌≡◌, ◌<◌, [], ◌∷◌, IfOk, IfSome, IfNone, OnOk};
ghost use Rattle.claim_table.specs.Counts.{occurrences};
ghost use Rattle.job_batch.specs.Batch.{all_seats, opening_hand, Pushed, Answered, FoundEmpty, kept, dealt, gathered};
ghost use Rattle.job_batch.specs.Seats.{owner_hand, thief_hand, HasRoom, IsOpen, UsedOne, AreTogether, SameDeque};

use crate::rule::{Deal, Gather, Push, Take};
use crate::seats::{OwnerSeat, ThiefSeat};
use crossbeam_deque::Worker;
use lists::NoMemory;
use std::alloc::Global;

impl OwnerSeat {
    /// The seat of worker 0 at an empty deque with room for so many places.
    ///
    /// # Errors
    /// `NoMemory` if there is no memory for the deque.
    pub fn new(alloc: Global, room: u32) -> Result<OwnerSeat, NoMemory>
        ensures hand { IfOk result (λ s. owner_hand s ≡ opening_hand) }
        ensures room { IfOk result (λ s. IsOpen s room) }
    {
        let deque = Worker::fifo_as(alloc, room as usize)?;
        Ok(OwnerSeat { deque })
    }

    /// Pushes a place, which was not pushed before, while nobody else has a seat. It takes no memory.
    pub fn push(&mut self, place: u32)
        requires room { HasRoom self.old }
        requires alone { (owner_hand self.old).seats ≡ all_seats }
        requires is_new { occurrences place (owner_hand self.old).pushed ≡ 0 }
        ensures pushed { Pushed (owner_hand self.old) (place ∷ []) (owner_hand self.new) }
        ensures room { UsedOne self.old self.new }
    {
        if self.deque.push_as::<Push>(place).is_err() {
            unreachable!()
        }
    }

    /// The place at the front of the deque, which leaves it; or `None` if the deque was found empty.
    /// It takes no memory.
    pub fn pop(&mut self) -> Option<u32>
        requires { 0 < (owner_hand self.old).seats }
        ensures some { IfSome result (λ place. Answered (owner_hand self.old) (place ∷ []) (owner_hand self.new)) }
        ensures none { IfNone result ((owner_hand self.new ≡ owner_hand self.old) × FoundEmpty (owner_hand self.old)) }
        ensures same { SameDeque self.old self.new }
    {
        self.deque.pop_as::<Take>()
    }

    /// A seat for a thief.
    ///
    /// # Errors
    /// `NoMemory` if there is no memory for another handle of the deque.
    pub fn deal(&mut self) -> Result<ThiefSeat, NoMemory>
        requires { 1 < (owner_hand self.old).seats }
        ensures kept { OnOk result (owner_hand self.new ≡ kept (owner_hand self.old)) }
        ensures dealt { IfOk result (λ t. thief_hand t ≡ dealt (owner_hand self.old)) }
        ensures together { IfOk result (λ t. AreTogether self.new t) }
        ensures same { SameDeque self.old self.new }
    {
        let deque = self.deque.stealer()?;
        let pass = self.deque.another::<Deal>();
        Ok(ThiefSeat { deque, pass })
    }

    /// Takes a thief's seat back, with what was answered to it.
    pub fn gather(&mut self, thief: ThiefSeat)
        requires together { AreTogether self.old thief }
        requires seated { 0 < (owner_hand self.old).seats }
        ensures gathered { owner_hand self.new ≡ gathered (owner_hand self.old) (thief_hand thief) }
        ensures same { SameDeque self.old self.new }
    {
        let ThiefSeat { deque: _, pass } = thief;
        self.deque.absorb::<Gather>(pass);
    }
}
