//! The fractions of edges, vertices and classes, the contribution of a decorated tree, Kontsevich's sum and the
//! numbers that have no residue: definitions, in `specs/`, with worked numbers that compute them, in `proofs/`.
#![tactic(auto)]
