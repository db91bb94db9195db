//! The sum of a problem on many workers, in rounds, with a budget and with stops.
//!
//! [`advance`] sums the trees of a state from its next number on, in rounds of at most 65,536 numbers, each by all
//! workers beside each other. It ends with the last tree, at the end of a budget, at the end of a round after which a
//! stop was asked for, or at the first round that has a bad tree. A chain of such calls comes to what one call comes
//! to.
#![tactic(auto)]

mod advancing;
mod parts;
mod progress;
mod round;

pub use advancing::{advance, advance_problem};
pub use progress::{Outcome, Progress};

#[cfg(test)]
mod tests;
