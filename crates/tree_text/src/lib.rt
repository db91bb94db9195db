//! Reading the text of a decorated tree, as `edges 0-1:1 0-2:1 colours 0 1 1 marks -`.
//!
//! The grammar of the texts is: `edges`, then 1 to 10 times a space and `u-v:a`; a space and `colours`, then 2 to 11 times
//! a space and a number; a space and `marks`, then either a space and `-`, or 1 to 12 times a space and a number. Here u,
//! v, a and the numbers are decimals from `0` to `99` without leading zeros. So the grammar has texts that no tree has, as
//! those with more edges than colours: [`TreeTextError`] tells the two apart.
#![tactic(auto)]

mod error;
mod numbers;
mod pairs;
mod parts;
mod reader;
mod reading;
mod refusal;
mod stage;
#[cfg(test)]
mod tests;

pub use error::TreeTextError;
pub use reading::read;
pub use refusal::refusal_line;
