//! Whole numbers, fractions that are never reduced, and residues: the definitions that every other crate cites,
//! in `specs/`, and their laws, in `proofs/`.
#![tactic(auto)]
