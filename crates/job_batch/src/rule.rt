// The rule of the deque of a batch, and what its calls tell.

use crossbeam_deque::protocol::{Join, Outcome, Protocol, Split};
use std::collections::LinkedList;

// What a worker knows of a batch: how many of the seats it has, the places that were pushed, and those that its pops or
// steals answered. Worker 0 has also what was answered to the thieves that gave their seats back. No value of it is made.
pub struct Hand {
    pub seats: u64,
    pub pushed: LinkedList<u32>,
    pub answers: LinkedList<u32>,
}

// The batch rule.
pub struct BatchRule;

impl Protocol<u32, Hand> for BatchRule {
    ghost use Rattle.job_batch.specs.Batch.{IsBatch, opening_hand, empty_hand};

    ghost holds = { IsBatch };

    ghost first = { opening_hand };

    ghost guest = { empty_hand };
}

pub(crate) struct Push;

impl Outcome<u32, Hand> for Push {
    ghost use Rattle.job_batch.specs.Batch.{Pushed};

    ghost then = { Pushed };
}

pub(crate) struct Take;

impl Outcome<u32, Hand> for Take {
    ghost use Rattle.job_batch.specs.Batch.{Answered, FoundEmpty};

    ghost then = { Answered };

    ghost empty = { FoundEmpty };
}

// A seat for a thief.
pub(crate) struct Deal;

impl Split<Hand> for Deal {
    ghost use Rattle.job_batch.specs.Batch.{kept, dealt};

    ghost left = { kept };

    ghost right = { dealt };
}

// A thief's seat given back.
pub(crate) struct Gather;

impl Join<Hand> for Gather {
    ghost use Rattle.job_batch.specs.Batch.{gathered, empty_hand};

    ghost both = { gathered };

    ghost spent = { empty_hand };
}
