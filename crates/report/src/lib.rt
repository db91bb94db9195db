//! The text that is printed of the sum of a problem: the residues and the fraction of each integral, or the least tree
//! without an inverse.
#![tactic(auto)]

mod fractions;
mod report;
mod status;
mod text;

pub use report::{Report, done, no_inverse};
pub use status::Status;
pub use text::{append_integral_line, append_labelled_line};

#[cfg(test)]
mod tests;
