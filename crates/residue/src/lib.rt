//! Moduli and arithmetic modulo them, and the weights of a problem. The list types, the errors and the classes that go
//! with them are named here too.
#![tactic(auto)]

pub mod errors;
pub mod moduli;
pub mod modulus;
mod montgomery;
pub mod ratio;
pub mod setup;
#[cfg(test)]
mod tests;

pub use classes::{Class, Integrals, Power, Powers, Term, Terms};
pub use errors::NoUnit;
pub use lists::{Bytes, Items, NoMemory};
pub use moduli::{Moduli, Residues};
pub use modulus::{Modulus, ModulusError, coprime};
pub use ratio::Ratio;
pub use setup::{Setup, SetupError};
