//! The contribution of a decorated tree, regrouped: definitions, in `specs/`, and theorems, in `proofs/`.
//!
//! The flag of an edge of degree `a` at a vertex of colour `c` is `a / (L_c - L_u)`, where `u` is the colour of its
//! other end, and `F` is the sum of the flags at a vertex. A vertex of `s` ends and `t` marks without psi classes is
//! `T^(s-1)`, times the product of its flags, times `F^(s+t-3)`, also where `s + t` is below 3. So each edge may take
//! both of its flags, or the inverse of the flag at a leaf, and each step of a walk but the first may take the weight
//! `T` of the vertex that it leads back to. Left at a vertex are powers of `F`. What an edge and a step give then
//! depends on few colours and degrees, and not on the rest of the tree.
//!
//! Fractions are never reduced. The products of parts are the contribution with a common factor above and below, so
//! that a residue of the products is one of the contribution. The converse does not hold: a part may lack a residue
//! where the contribution has one.
#![tactic(auto)]
