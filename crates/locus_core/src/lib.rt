//! The top call: from the words of the command line and the bytes of a file to what is printed.
#![tactic(auto)]

mod listing;
mod numbers;
mod printing;
mod sums;
mod top;
mod words;
mod work;

pub use top::{Answer, locus, refuse_words};

#[cfg(test)]
mod tests;
