//! Decorated trees, their numbers and their texts.
//!
//! A decorated tree has a tree on the vertices 0 to n - 1, a colour for each vertex, such that the two ends of an edge
//! have different colours, a positive degree for each edge and a vertex for each mark. A shape fixes the greatest
//! colour, the sum of the degrees and the number of marks. The trees of a shape are numbered from 0 on: a smaller n
//! comes first, and among the trees with the same n the digits of the number are, most significant first, the letters
//! of the Prüfer word, the colour of vertex 0, for each further vertex the index of its colour among those other than
//! the colour of its neighbour on the way to vertex 0, the rank of the degrees in lexicographic order, and the vertex
//! of each mark.
#![tactic(auto)]

mod bases;
mod degree_ranks;
mod following;
mod number_list;
mod rank;
mod shape;
#[cfg(test)]
mod tests;
mod text;
mod tree;
mod unrank;
mod walk;

pub use rank::NotOfShape;
pub use shape::{Shape, ShapeError};
pub use text::write_text;
pub use tree::Tree;
