// What the seats of an atomic table know of a round, and how it is dealt and gathered. Each
// representation of the claims has records of its own.
use atomic_table::{Join, Play, Split};
use std::collections::LinkedList;

/// What a seat of the table knows: the number of blocks of the round, and the records of the
/// workers that it stands for. The code never makes a value of it.
pub struct View<R> {
    /// The number of blocks.
    pub blocks: u32,
    /// One record for each worker that the seat stands for.
    pub records: LinkedList<R>,
}

/// The step of a new seat, which stands for no worker.
pub struct Enter;

impl<R> Play<(), View<R>> for Enter {
    ghost use Rattle.claim_table.specs.Views.{NewSeat};

    ghost then = { NewSeat };
}

/// The first record goes to a seat of its own, and the others stay.
pub struct Deal;

impl<R> Split<View<R>> for Deal {
    ghost use Rattle.claim_table.specs.Views.{dealt_left, dealt_right};

    ghost left = { dealt_left };

    ghost right = { dealt_right };
}

/// The records of the second seat go behind those of the first, and none is left.
pub struct Gather;

impl<R> Join<View<R>> for Gather {
    ghost use Rattle.claim_table.specs.Views.{joined, spent};

    ghost both = { joined };

    ghost spent = { spent };
}
