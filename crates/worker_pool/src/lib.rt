//! Rounds of a job by several workers.
//!
//! A job has blocks, and each worker has a part in which it gathers. A worker's loop takes a
//! block, looks at the least bad number that anyone reported so far, works the block and reports
//! the bad number that it met. [`run_round`] runs the loops of all workers beside each other, over
//! the claims of the crate `claim_table`, so that each block is worked exactly once.
#![tactic(auto)]

mod gate;
mod job;
mod meeting;
mod pool;
mod shares;
#[cfg(test)]
mod tests;

pub use gate::Gate;
pub use job::Job;
pub use meeting::{Hold, MeetingGate};
pub use pool::{Round, run_round, work_loop};
pub use shares::Shares;
