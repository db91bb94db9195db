//! Trees on numbered vertices, and the words that stand for them (Prüfer 1918).
//!
//! A word of n - 2 letters below n stands for one tree on the vertices 0 to n - 1, and each of these trees has one word.
//! To read the word of a tree, take the leaf with the smallest number, write the number of its neighbour and remove the
//! leaf, while more than two vertices remain. To make the tree of a word, join to each letter in turn the smallest vertex
//! that is a remaining leaf, and join the last two vertices at the end.
#![tactic(auto)]

mod code;
mod degrees;
mod edges;
mod pairs;
#[cfg(test)]
mod tests;
mod word;

pub use code::{NotATree, decode, encode};
pub use edges::{Edges, MOST_EDGES};
pub use word::{MOST_LETTERS, Word};
