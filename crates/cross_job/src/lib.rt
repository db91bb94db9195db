//! The same numbers under other weights.
//!
//! Numbers that come of a sum over trees do not depend on the weights of the torus, although each contribution does. So
//! a computation is checked by a second choice of weights: problems that are the same but for their weights must come
//! to the same residues. [`same_but_weights`] tells whether two problems are such, a [`CrossJob`] sums the trees of all
//! of them as one job, [`sum_round`] runs it on many workers, [`add_column`] adds up the parts of all workers for one
//! problem, [`first_bad_problem`] names the first problem for which a tree is bad, and [`first_disagreement`] compares the
//! residues of all.
#![tactic(auto)]

mod alike;
mod column;
mod difference;
mod found;
mod job;
mod part;
mod round;
mod tables;

pub use alike::{Differ, same_but_weights};
pub use column::add_column;
pub use difference::{Disagreement, first_difference, first_disagreement};
pub use found::{BadProblem, first_bad_problem};
pub use job::CrossJob;
pub use part::CrossPart;
pub use round::{BadNumber, sum_round};
pub use tables::table_sums;

#[cfg(test)]
mod tests;
