// The call of a thief at the deque of a batch.

ghost use Rattle.std.specs.Prelude.{◌≡◌, [], ◌∷◌, IfSome, IfNone};
ghost use Rattle.job_batch.specs.Batch.{Answered};
ghost use Rattle.job_batch.specs.Seats.{thief_hand, SameStealer};

use crate::rule::Take;
use crate::seats::ThiefSeat;

impl ThiefSeat {
    /// The place at the front of the deque, which leaves it; or `None` if the steal failed, whatever the cause. It takes
    /// no memory.
    pub fn steal(&mut self) -> Option<u32>
        ensures some { IfSome result (λ place. Answered (thief_hand self.old) (place ∷ []) (thief_hand self.new)) }
        ensures none { IfNone result (thief_hand self.new ≡ thief_hand self.old) }
        ensures same { SameStealer self.old self.new }
    {
        self.deque.steal_as::<Take>(&mut self.pass).success()
    }
}
