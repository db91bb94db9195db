//! Short lists of pairs in fixed arrays.

ghost use Rattle.std.specs.Prelude.{◌≡◌, ◌<◌, ◌≤◌, [], ◌∷◌, ◌++◌, length};
ghost use Rattle.trees.specs.Edges.{comes_before, is_increasing};
ghost use Rattle.trees.specs.Words.{insert_edge, neighbour_of, cut_off, touches};

use std::marker::Model;

/// At most ten pairs of vertices.
#[derive(Clone, Copy, Debug, PartialEq, Eq)]
pub(crate) struct Pairs {
    items: [(u8, u8); 10],
    count: usize,
}

impl Model for Pairs {
    ghost use Rattle.std.specs.Prelude.{ℕ, List, take};
    ghost use Rattle.lists.specs.Padding.{IsPadded};

    ghost Value = { List (ℕ × ℕ) };

    ghost use Rattle.prufer.specs.PairsFields.{fields_of, fields_of-take};

    ghost view = { λ p. take p.count p.items };

    ghost invariant = { λ p. IsPadded (0, 0) 10 p.count p.items };

    ghost inverse = { fields_of };

    ghost inverse_ok = { fields_of-take };
}

impl Pairs {
    /// No pairs.
    pub(crate) fn empty() -> Self
        ensures { result ≡ [] }
    {
        Pairs {
            items: [(0, 0); 10],
            count: 0,
        }
    }

    /// These pairs.
    pub(crate) fn of(pairs: &[(u8, u8)]) -> Self
        requires { length pairs.now ≤ 10 }
        ensures { result ≡ pairs.now }
    {
        let mut kept = Pairs::empty();
        for pair in pairs {
            kept.push(*pair);
        }
        kept
    }

    /// The pairs.
    pub(crate) fn as_slice(&self) -> &[(u8, u8)]
        ensures value { result.now ≡ self.now }
        ensures limited { length self.now ≤ 10 }
    {
        &self.items[..self.count]
    }

    /// Puts a pair at the end.
    fn push(&mut self, pair: (u8, u8))
        requires { length self.old < 10 }
        ensures { self.new ≡ self.old ++ pair ∷ [] }
    {
        self.items[self.count] = pair;
        self.count += 1;
    }

    /// These pairs with one more, before the first one that it comes before.
    pub(crate) fn with(&self, edge: (u8, u8)) -> Self
        requires { length self.now < 10 }
        ensures { result ≡ insert_edge edge self.now }
    {
        let mut more = Pairs::empty();
        let mut placed = false;
        for pair in self.as_slice() {
            if !placed && comes_before(edge, *pair) {
                more.push(edge);
                placed = true;
            }
            more.push(*pair);
        }
        if !placed {
            more.push(edge);
        }
        more
    }

    /// These pairs without the first one at a vertex.
    pub(crate) fn without_edge_at(&self, vertex: u8) -> Self
        ensures { result ≡ cut_off vertex self.now }
    {
        let mut fewer = Pairs::empty();
        let mut found = false;
        for pair in self.as_slice() {
            if !found && touches(vertex, *pair) {
                found = true;
            } else {
                fewer.push(*pair);
            }
        }
        fewer
    }

    /// The other end of the first pair at a vertex, or 0.
    pub(crate) fn neighbour(&self, vertex: u8) -> u8
        ensures { result ≡ neighbour_of vertex self.now }
    {
        for pair in self.as_slice() {
            if pair.0 == vertex {
                return pair.1;
            }
            if pair.1 == vertex {
                return pair.0;
            }
        }
        0
    }
}

/// Whether an edge ends at a vertex.
fn touches(vertex: u8, edge: (u8, u8)) -> bool
    ensures { result ≡ touches vertex edge }
{
    edge.0 == vertex || edge.1 == vertex
}

/// Whether an edge comes before another, by their first and then by their second ends.
fn comes_before(e: (u8, u8), f: (u8, u8)) -> bool
    ensures { result ≡ comes_before e f }
{
    e.0 < f.0 || e.0 == f.0 && e.1 < f.1
}

/// Whether each edge comes before the next one.
pub(crate) fn is_increasing(edges: &[(u8, u8)]) -> bool
    ensures { result ≡ is_increasing edges.now }
{
    for place in 1..edges.len() {
        if !comes_before(edges[place - 1], edges[place]) {
            return false;
        }
    }
    true
}
