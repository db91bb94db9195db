//! The factors of vertices.
//!
//! A vertex of colour `c` has `s` edges and `t` marks. Its edge `u` has the degree `a_u` and goes to a vertex of colour
//! `c(u)`; `D_u = L_c - L_c(u)` is the difference of the weights. `T` is the product of the differences `L_c - L_j`
//! over the colours `j` other than `c`, `B` the product of the `D_u`, and `C` the sum over `u` of `a_u` times the
//! product of the differences of the other edges. Without psi classes the fraction of the vertex is
//!
//! | Case | Top | Bottom |
//! |---|---|---|
//! | `s = 1`, `t = 0` | `D_1` | `a_1` |
//! | `s = 1`, `t = 1` | 1 | 1 |
//! | `s = 2`, `t = 0` | `T a_1 a_2` | `a_1 D_2 + a_2 D_1` |
//! | `s + t >= 3` | `T^(s-1)` times the product of the `a_u` and `C^(s+t-3)` | `B^(s+t-2)` |
//!
//! After Kontsevich (Enumeration of rational curves via torus actions, 1995) and Graber and Pandharipande
//! (Localization of virtual classes, 1999). With the exponents of psi classes at the marks, of which the sum `S` is
//! above 0, and with `N = s + t`, it is
//!
//! | Case | Top | Bottom |
//! |---|---|---|
//! | `s = 1`, `t = 1` | `(-D_1)^S` | `a_1^S` |
//! | `N >= 3`, `S <= N-3` | `T^(s-1)` times the product of the `a_u`, `C^(N-3-S)` and `K` | `B^(N-2-S)` |
//! | `N >= 3`, `S > N-3` | 0 | 1 |
//!
//! where `K` is the multinomial coefficient of `N-3` over the exponents and `N-3-S`. These cases are this project's
//! own, made by the same method.
#![tactic(auto)]

mod plain;
mod psi;
mod sums;

pub use plain::{flag, pair, tangent, vertex, vertex_ratio};
pub use psi::{multinomial, vertex_psi, vertex_psi_ratio};

#[cfg(test)]
mod tests;
