//! A batch of unequal problems.
#![tactic(auto)]

mod alone;
mod job;
mod owner;
mod rule;
mod seats;
mod thief;
mod work;
mod worker;
