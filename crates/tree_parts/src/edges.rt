//! Edges with the colours of their ends.

ghost use Rattle.std.specs.Prelude.{◌≡◌, ◌≢◌, ◌<◌, ◌≤◌, length, take, All};
ghost use Rattle.localisation.specs.ClassValue.{along_edges};
ghost use Rattle.tree_parts.specs.Edges.{coloured_edge};

/// An edge as its factors see it: the colours of its two ends, and its degree.
#[derive(Clone, Copy, Debug, PartialEq, Eq)]
pub struct ColouredEdge {
    pub first: u8,
    pub second: u8,
    pub degree: u8,
}

/// The edges of a list of pairs of vertices, which have these colours and degrees, and any values after them.
pub(crate) fn coloured_edges(
    pairs: &[(u8, u8)],
    colours: &[u8],
    degrees: &[u8],
) -> [ColouredEdge; 10]
    requires few { length pairs.now ≤ 10 }
    requires within { All (λ e. (e.0 < length colours.now) × (e.1 < length colours.now)) pairs.now }
    requires degrees { length degrees.now ≡ length pairs.now }
    ensures value { take (length pairs.now) result ≡ along_edges coloured_edge colours.now pairs.now degrees.now }
    ensures long { length result ≡ 10 }
{
    let mut edges = [ColouredEdge {
        first: 0,
        second: 0,
        degree: 0,
    }; 10];
    for place in 0..pairs.len() {
        let (u, v) = pairs[place];
        edges[place] = ColouredEdge {
            first: colours[u as usize],
            second: colours[v as usize],
            degree: degrees[place],
        };
    }
    edges
}
