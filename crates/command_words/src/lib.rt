//! Reading the arguments of a command line by a table of commands, with `clap`.
#![tactic(auto)]

mod command;
mod given;
mod look;
mod numbers;
mod reading;
mod table;
mod taken;

pub use given::{Given, GivenOption};
pub use numbers::number;
pub use reading::{WordsError, read};
pub use table::{Argument, CommandRow, Limit, Program};
pub use taken::are_taken;
