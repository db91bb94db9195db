//! The ends of edges at each vertex.

ghost use Rattle.std.specs.Prelude.{◌≡◌, ◌≢◌, ℕ, ◌<◌, ◌≤◌, ◌++◌, ◌∷◌, [], length, slice_index_or, slice_set, All};
ghost use Rattle.localisation.specs.ClassValue.{ends_among};
ghost use Rattle.tree_parts.specs.Ends.{ends_of};

use std::marker::Model;

/// At most ten ends of edges at a vertex: for each the colour of the neighbour and the degree of the edge.
#[derive(Clone, Copy)]
pub(crate) struct Ends {
    items: [(u8, u8); 10],
    count: u8,
}

impl Model for Ends {
    ghost use Rattle.std.specs.Prelude.{ℕ, List, take};
    ghost use Rattle.lists.specs.Padding.{IsPadded};

    ghost Value = { List (ℕ × ℕ) };

    ghost use Rattle.tree_parts.specs.EndsFields.{fields_of, fields_of-take};

    ghost view = { λ e. take e.count e.items };

    ghost invariant = { λ e. IsPadded (0, 0) 10 e.count e.items };

    ghost inverse = { fields_of };

    ghost inverse_ok = { fields_of-take };
}

impl Ends {
    /// No ends.
    fn none() -> Self
        ensures { result ≡ [] }
    {
        Ends {
            items: [(0, 0); 10],
            count: 0,
        }
    }

    /// Puts an end after the others.
    fn push(&mut self, colour: u8, degree: u8)
        requires { length self.old < 10 }
        ensures { self.new ≡ self.old ++ (colour, degree) ∷ [] }
    {
        self.items[self.count as usize] = (colour, degree);
        self.count += 1;
    }

    /// The ends.
    pub(crate) fn as_slice(&self) -> &[(u8, u8)]
        ensures value { result.now ≡ self.now }
        ensures limited { length self.now ≤ 10 }
    {
        &self.items[..self.count as usize]
    }
}

/// The ends at each vertex, in the order of the edges, of a list of pairs of two different vertices, which have these
/// colours and degrees.
pub(crate) fn ends_by_vertex(pairs: &[(u8, u8)], colours: &[u8], degrees: &[u8]) -> [Ends; 11]
    requires vertices { length colours.now ≤ 11 }
    requires few { length pairs.now ≤ 10 }
    requires within { All (λ e. (e.0 < length colours.now) × (e.1 < length colours.now)) pairs.now }
    requires apart { All (λ e. e.0 ≢ e.1) pairs.now }
    requires degrees { length degrees.now ≡ length pairs.now }
    ensures value { (v : ℕ) → v < 11
        → ends_of (slice_index_or result v []) ≡ ends_among v colours.now pairs.now degrees.now }
    ensures long { length result ≡ 11 }
{
    let mut ends = [Ends::none(); 11];
    for place in 0..pairs.len() {
        let (u, v) = pairs[place];
        let degree = degrees[place];
        push_end(&mut ends, u, colours[v as usize], degree);
        push_end(&mut ends, v, colours[u as usize], degree);
    }
    ends
}

/// Puts an end at a vertex.
fn push_end(ends: &mut [Ends; 11], vertex: u8, colour: u8, degree: u8)
    requires long { length ends.old ≡ 11 }
    requires vertex { vertex < 11 }
    requires few { length (slice_index_or ends.old vertex []) < 10 }
    ensures { ends.new ≡ slice_set ends.old vertex (slice_index_or ends.old vertex [] ++ (colour, degree) ∷ []) }
{
    ends[vertex as usize].push(colour, degree);
}
