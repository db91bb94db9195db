//! Problems: what is summed over which trees, and modulo what.
//!
//! A [`Problem`] keeps in its type every rule that a problem has to keep, so that the crates that compute with one never
//! test a rule again. [`Problem::new`] makes one of its parts, if they keep the rules. How a problem is written in a file
//! is the business of the crate `problem_toml`.
#![tactic(auto)]

mod degrees;
mod integrals;
mod limits;
mod maker;
mod moduli;
mod problem;
mod weights;

pub use degrees::degree;
pub use moduli::product;
pub use problem::Problem;

#[cfg(test)]
mod tests;
