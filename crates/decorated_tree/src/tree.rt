//! Decorated trees.

ghost use Rattle.std.specs.Prelude.{◌≡◌, take};

use prufer::Edges;

/// A decorated tree. The entries of its arrays past the used ones are 0.
#[derive(Clone, Copy, Debug, PartialEq, Eq)]
pub struct Tree {
    /// The number of vertices, from 2 to 11.
    pub n: u8,
    /// The edges, n - 1 pairs (u, v) with u < v < n.
    pub edges: Edges,
    /// The colour of each vertex, n entries of 11.
    pub colours: [u8; 11],
    /// The degree of each edge, n - 1 entries of 10.
    pub degrees: [u8; 10],
    /// The number of marks, from 0 to 12.
    pub m: u8,
    /// The vertex of each mark, m entries of 12.
    pub marks: [u8; 12],
}

/// The entries in use: the first `count` of them.
pub(crate) fn used(places: &[u8], count: u8) -> &[u8]
    ensures { result.now ≡ take count places.now }
{
    &places[..places.len().min(count as usize)]
}
