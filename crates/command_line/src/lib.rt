//! The command line of the program: its commands, and what its arguments ask of it.
#![tactic(auto)]

mod arguments;
mod command;
mod files;
mod reading;
mod requests;
mod rows;
mod table;

pub use command::{Command, RunRequest};
pub use command_words::WordsError;
pub use reading::{are_taken, read};
pub use table::Commands;

#[cfg(test)]
mod tests;
