//! Sets of edges.

ghost use Rattle.std.specs.Prelude.{◌≡◌, ◌<◌, ◌≤◌, ◌↔◌, false, [], length, nat_lt, IsTrue, IsNone, IsSome, IfSome, Some, slice_get};
ghost use Rattle.std.specs.List.{list_all};
ghost use Rattle.prufer.specs.EdgeLists.{is_edge_list};

use crate::pairs::{Pairs, is_increasing};
use std::marker::Model;

/// The most edges of [`Edges`]: a tree with 11 vertices has 10.
pub const MOST_EDGES: usize = 10;

/// At most ten edges (u, v) with u < v, strictly increasing by u and then by v.
#[derive(Clone, Copy, Debug, PartialEq, Eq)]
pub struct Edges {
    pairs: Pairs,
}

impl Model for Edges {
    ghost use Rattle.std.specs.Prelude.{ℕ, List, IsTrue};
    ghost use Rattle.prufer.specs.EdgeLists.{is_edge_list};

    ghost Value = { List (ℕ × ℕ) };

    ghost view = { λ e. e.pairs };

    ghost invariant = { λ e. IsTrue (is_edge_list e.pairs) };

    ghost inverse = { λ pairs. record { pairs = pairs } };
}

impl Edges {
    /// The edges of this list, if they are at most [`MOST_EDGES`] pairs (u, v) with u < v, strictly increasing.
    pub fn of(pairs: &[(u8, u8)]) -> Option<Self>
        ensures none { IsNone result ↔ (is_edge_list pairs.now ≡ false) }
        ensures some { IsSome result ↔ IsTrue (is_edge_list pairs.now) }
        ensures value { IfSome result (λ edges. edges ≡ pairs.now) }
    {
        if pairs.len() > MOST_EDGES || !is_increasing(pairs) || !are_upward(pairs) {
            return None;
        }
        Some(Edges {
            pairs: Pairs::of(pairs),
        })
    }

    /// The number of edges.
    pub fn len(&self) -> usize
        ensures value { result ≡ length self.now }
        ensures limited { result ≤ MOST_EDGES }
        ensures form { IsTrue (is_edge_list self.now) }
    {
        self.as_slice().len()
    }

    /// Whether there is no edge.
    pub fn is_empty(&self) -> bool
        ensures { IsTrue result ↔ (self.now ≡ []) }
    {
        self.as_slice().is_empty()
    }

    /// The edge at an index, counted from 0, with its smaller end first.
    pub fn pair(&self, place: usize) -> (u8, u8)
        requires { place < length self.now }
        ensures value { slice_get self.now place ≡ Some result }
        ensures upward { result.0 < result.1 }
    {
        self.as_slice()[place]
    }

    /// The edges.
    pub fn as_slice(&self) -> &[(u8, u8)]
        ensures value { result.now ≡ self.now }
        ensures form { IsTrue (is_edge_list self.now) }
    {
        self.pairs.as_slice()
    }

    /// The edges of a list that has the form.
    pub(crate) fn from_pairs(pairs: Pairs) -> Self
        requires { IsTrue (is_edge_list pairs) }
        ensures { result ≡ pairs }
    {
        Edges { pairs }
    }

    /// The edges as a list.
    pub(crate) fn pairs(&self) -> Pairs
        ensures value { result ≡ self.now }
        ensures form { IsTrue (is_edge_list self.now) }
    {
        self.pairs
    }
}

/// Whether each pair has its smaller end first.
fn are_upward(pairs: &[(u8, u8)]) -> bool
    ensures { result ≡ list_all (λ e. nat_lt e.0 e.1) pairs.now }
{
    pairs.iter().all(|pair| pair.0 < pair.1)
}
