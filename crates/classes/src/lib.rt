//! Classes on the space of stable maps, their powers and terms: what is integrated.
#![tactic(auto)]

mod class;
#[cfg(test)]
mod tests;

pub use class::{Class, Integrals, Power, Powers, Term, Terms};
