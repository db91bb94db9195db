//! Checkpoints: how far the sum of a problem has come, and its texts.
//!
//! A [`State`] keeps in its type that it is one: its problem is the reading of its source, and its residues are below
//! their moduli. [`write`] gives the text of a state, and [`read`] the state of a text.
//!
//! The pieces of a text have modules of their own, for texts of the same make: [`words`] and [`decimal`] numbers,
//! [`sources`] with their lengths, [`rows`] of [`residues`], and the [`seal`] of the last line.
#![tactic(auto)]

mod body;
pub mod decimal;
mod error;
mod reading;
mod refusal;
pub mod residues;
pub mod rows;
pub mod seal;
pub mod sources;
mod state;
pub mod words;
mod writing;

pub use error::CheckpointError;
pub use reading::read;
pub use refusal::{append_refusal, refusal_line};
pub use state::{State, fresh};
pub use writing::write;

#[cfg(test)]
mod tests;
