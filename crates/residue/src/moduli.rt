//! The lists of moduli and of residues.

use crate::modulus::Modulus;
use lists::Items;

/// The moduli of a problem, in order.
pub type Moduli = Items<Modulus>;

/// Residues, integral by integral and within one integral modulus by modulus.
pub type Residues = Items<u64>;
