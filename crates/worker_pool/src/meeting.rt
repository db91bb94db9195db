//! A gate at which two workers meet. Tests see by it that the loops of a round run beside each other, and that workers
//! steal; the pool and the program never use it.

use crate::gate::Gate;
use std::sync::atomic::{AtomicU64, Ordering};

/// How often a worker that is held looks for the other before it gives up.
const LOOKS: u64 = 1_000_000_000;

/// Where a worker is held: at one of its turns, until the other worker has come with a certain turn of its own.
#[derive(Clone, Copy, Debug, PartialEq, Eq, Drop)]
pub struct Hold {
    /// The turn of the worker at which it is held.
    pub at: u64,
    /// The turn of the other worker for which it is held.
    pub until: u64,
}

/// Holds the workers 0 and 1 at one turn each, until the other has come far enough, and lets all other workers pass.
///
/// Each pass is noted before the worker is held. A worker that was held for 1,000,000,000 looks gives up, and this is
/// noted too, so that every call returns.
#[derive(Drop)]
pub struct MeetingGate {
    first: Hold,
    second: Hold,
    // How many turns of the workers 0 and 1 have come.
    turns_of_first: AtomicU64,
    turns_of_second: AtomicU64,
    // 1 if a worker gave up.
    gave_up: AtomicU64,
}

impl MeetingGate {
    /// A gate that holds worker 0 as `first` tells, and worker 1 as `second` tells.
    pub fn new(first: Hold, second: Hold) -> MeetingGate {
        MeetingGate {
            first,
            second,
            turns_of_first: AtomicU64::new(0),
            turns_of_second: AtomicU64::new(0),
            gave_up: AtomicU64::new(0),
        }
    }

    /// Whether both turns came for which a worker was to be held, and no worker gave up.
    pub fn have_met(&self) -> bool {
        self.gave_up.load(Ordering::SeqCst) == 0
            && self.turns_of_first.load(Ordering::SeqCst) > self.second.until
            && self.turns_of_second.load(Ordering::SeqCst) > self.first.until
    }

    /// Notes a turn of a worker, and holds it if this is the turn for that.
    fn come(&self, turn: u64, hold: Hold, own: &AtomicU64, other: &AtomicU64) {
        own.fetch_max(turn.saturating_add(1), Ordering::SeqCst);
        if turn == hold.at {
            self.wait_for(other, hold.until);
        }
    }

    /// Looks until a turn has come.
    fn wait_for(&self, turns: &AtomicU64, turn: u64) {
        for _ in 0..LOOKS {
            if turns.load(Ordering::SeqCst) > turn {
                return;
            }
        }
        self.gave_up.store(1, Ordering::SeqCst);
    }
}

impl Gate for MeetingGate {
    fn pass(&self, worker: u32, turn: u64) {
        match worker {
            0 => self.come(
                turn,
                self.first,
                &self.turns_of_first,
                &self.turns_of_second,
            ),
            1 => self.come(
                turn,
                self.second,
                &self.turns_of_second,
                &self.turns_of_first,
            ),
            _ => {}
        }
    }
}
