//! A worker of a batch.

use crate::job::EndedJob;
use crate::seats::{OwnerSeat, ThiefSeat};
use sum_job::PartSum;

/// A seat at the deque of a batch.
#[derive(Drop)]
pub(crate) enum Seat {
    /// Worker 0's, from which places are popped.
    Owner(OwnerSeat),
    /// Another worker's, from which places are stolen.
    Thief(ThiefSeat),
}

/// A worker with its seat, its part for each job, and the jobs that it ended.
#[derive(Drop)]
pub(crate) struct BatchWorker {
    pub(crate) number: u32,
    pub(crate) seat: Seat,
    pub(crate) parts: Vec<PartSum>,
    pub(crate) ended: Vec<EndedJob>,
}
