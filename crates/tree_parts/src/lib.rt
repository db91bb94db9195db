//! A decorated tree as its factors read it: its edges with the colours of their ends, and the ends and the marks at each
//! vertex, all found once.
#![tactic(auto)]

mod edges;
mod ends;
mod marks;
mod parts;

pub use edges::ColouredEdge;
pub use parts::TreeParts;

#[cfg(test)]
mod tests;
