//! The contribution of a decorated tree, and sums over blocks of trees, with the factors that a table shares.
//!
//! A tree's contribution is a product and a sum of factors of its edges, its vertices and its classes. Here each of
//! them comes from words of a [`factor_table::FactorTable`]: no tree costs a division. A vertex of colour `c` with `s`
//! edges and `t` marks has
//!
//! | Case | Factor |
//! |---|---|
//! | `s = 1`, `t = 0` | the tip, with its sign changed |
//! | `s = 1`, `t = 1` | 1; under a psi class to the power `S`, the tip to the power `S` |
//! | `s = 2`, `t = 0` | the pair |
//! | `s + t >= 3` | `T^(s-1)` times the product of the flags and the power `s+t-3` of their sum |
//!
//! and under exponents of the sum `S`, at most `s+t-3`, the last is `K T^(s-1)` times the product of the flags and the
//! power `s+t-3-S` of their sum, with the multinomial coefficient `K`; if `S` is greater, it is 0.
//!
//! Words whose fraction has no residue modulo the modulus say nothing of the contribution, in which their bottoms may
//! cancel. Then the answer is `NoUnit`, and the caller takes the sum without the table.
#![tactic(auto)]

mod block;
mod class_values;
mod column;
mod edges;
mod flags;
mod numberings;
mod opening;
mod psi_free;
mod sum;
mod terms;
mod tree;
mod vertex;
mod vertices;

pub use numberings::Numberings;
pub use opening::problem_table;
pub use sum::TableSum;

#[cfg(test)]
mod tests;
