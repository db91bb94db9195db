//! The error of a division.

/// A needed denominator has no inverse modulo the modulus.
#[derive(Clone, Copy, Debug, PartialEq, Eq, Drop)]
pub struct NoUnit;
