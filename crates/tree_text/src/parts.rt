//! The parts of a text: edges with their degrees, colours and marks.

ghost use Rattle.std.specs.Prelude.{◌≡◌, ◌<◌, length};
ghost use Rattle.tree_text.specs.Steps.{no_parts, with_edge, with_colour, with_mark};

use crate::numbers::Numbers;
use crate::pairs::Pairs;

/// The parts of a text, as far as it has been read.
#[derive(Clone, Copy)]
pub(crate) struct Parts {
    /// The edges, as (u, v).
    pub(crate) edges: Pairs,
    /// The degree of each edge.
    pub(crate) degrees: Numbers,
    pub(crate) colours: Numbers,
    /// The vertices of the marks.
    pub(crate) marks: Numbers,
}

impl Parts {
    /// Nothing.
    pub(crate) fn none() -> Self
        ensures { result ≡ no_parts }
    {
        Parts {
            edges: Pairs::empty(),
            degrees: Numbers::empty(),
            colours: Numbers::empty(),
            marks: Numbers::empty(),
        }
    }

    /// These parts and one more edge, with its degree.
    pub(crate) fn with_edge(&self, edge: (u8, u8), degree: u8) -> Self
        requires edges { length self.now.edges < 10 }
        requires degrees { length self.now.degrees < 12 }
        ensures { result ≡ with_edge self.now edge degree }
    {
        Parts {
            edges: self.edges.with(edge),
            degrees: self.degrees.with(degree),
            colours: self.colours,
            marks: self.marks,
        }
    }

    /// These parts and one more colour.
    pub(crate) fn with_colour(&self, colour: u8) -> Self
        requires { length self.now.colours < 12 }
        ensures { result ≡ with_colour self.now colour }
    {
        Parts {
            edges: self.edges,
            degrees: self.degrees,
            colours: self.colours.with(colour),
            marks: self.marks,
        }
    }

    /// These parts and one more mark.
    pub(crate) fn with_mark(&self, vertex: u8) -> Self
        requires { length self.now.marks < 12 }
        ensures { result ≡ with_mark self.now vertex }
    {
        Parts {
            edges: self.edges,
            degrees: self.degrees,
            colours: self.colours,
            marks: self.marks.with(vertex),
        }
    }
}
