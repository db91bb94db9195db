//! The parts of classes: the factors that a class has at each edge and at each vertex of a decorated tree.
//!
//! At an edge of degree `a` between the colours `i` and `j`, and at a vertex of colour `c` with `s` edges, with the
//! weights `L_0` to `L_r`, the fractions are
//!
//! | Class | Edge top | Edge bottom | Vertex top | Vertex bottom |
//! |---|---|---|---|---|
//! | hypersurface `b` | product over `t` from 0 to `ba` of `t L_i + (ba-t) L_j` | `a^(ba+1)` | 1 | `(b L_c)^(s-1)` |
//! | r1 `k` | product over `t` from 1 to `ka-1` of `-(t L_i + (ka-t) L_j)` | `a^(ka-1)` | `(-k L_c)^(s-1)` | 1 |
//! | contact | product over `t` from 1 to `2a-1` of `t L_i + (2a-t) L_j` | `a^(2a-1)` | `(2 L_c)^(s-1)` | 1 |
//!
//! and 1 over 1 for every other class. They are this project's own definitions, made by the method of Kontsevich
//! (Enumeration of rational curves via torus actions, 1995).
#![tactic(auto)]

mod at_edge;
mod at_tree;
mod at_vertex;
mod limits;
mod term;
mod whole;

pub use at_edge::{edge_part, edge_part_ratio};
pub use at_tree::{term_value, whole_part};
pub use at_vertex::{vertex_part, vertex_part_ratio};
pub use limits::{are_powers_for, is_class_for};
pub use term::term_ratio;
pub use whole::whole_ratio;

#[cfg(test)]
mod tests;
