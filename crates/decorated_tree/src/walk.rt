//! The walk away from vertex 0, and colours along it.

ghost use Rattle.std.specs.Prelude.{◌≡◌, ℕ, ◌+◌, ◌<◌, ◌≤◌, [], ◌∷◌, ◌++◌, length, All, IsTrue};
ghost use Rattle.trees.specs.Edges.{is_tree};
ghost use Rattle.trees.specs.Walks.{walk_in, lifted, place_of, coloured, digits_of};
ghost use Rattle.decorated_tree.specs.Steps.{step_by, AreWithin};

use std::marker::Model;

/// At most ten steps, each a new vertex and the neighbour that it is reached from.
#[derive(Drop)]
pub(crate) struct Walk {
    steps: [(u8, u8); 10],
    count: usize,
}

impl Model for Walk {
    ghost use Rattle.std.specs.Prelude.{ℕ, List, take};
    ghost use Rattle.trees.specs.Padding.{IsPadded};

    ghost Value = { List (ℕ × ℕ) };

    ghost view = { λ w. take w.count w.steps };

    ghost invariant = { λ w. IsPadded (0, 0) 10 w.count w.steps };
}

impl Walk {
    /// No steps.
    fn empty() -> Self
        ensures { result ≡ [] }
    {
        Walk {
            steps: [(0, 0); 10],
            count: 0,
        }
    }

    /// The steps.
    pub(crate) fn as_slice(&self) -> &[(u8, u8)]
        ensures { result.now ≡ self.now }
    {
        &self.steps[..self.count]
    }

    /// Puts a step at the end.
    fn push(&mut self, step: (u8, u8))
        requires { length self.old < 10 }
        ensures { self.new ≡ self.old ++ step ∷ [] }
    {
        self.steps[self.count] = step;
        self.count += 1;
    }
}

/// The walk from vertex 0 through a tree on the vertices 0 to `n` - 1, in rounds over the edges in their order, until
/// all vertices are reached.
pub(crate) fn walk_from_zero(n: u8, edges: &[(u8, u8)]) -> Walk
    requires most { n ≤ 11 }
    requires tree { IsTrue (is_tree n edges.now) }
    ensures value { result ≡ walk_in n edges.now (0 ∷ []) }
    ensures within { AreWithin n result }
{
    let mut walk = Walk::empty();
    let mut there = [false; 11];
    there[0] = true;
    for _ in 0..n {
        if walk.as_slice().len() + 1 >= n as usize {
            return walk;
        }
        for edge in edges {
            let ends = (there[edge.0 as usize], there[edge.1 as usize]);
            if let Some(step) = step_along(*edge, ends.0, ends.1) {
                there[step.0 as usize] = true;
                walk.push(step);
            }
        }
    }
    walk
}

/// The step along an edge from an end that was there to one that was not, given which ends were there.
fn step_along(edge: (u8, u8), first: bool, second: bool) -> Option<(u8, u8)>
    ensures { result ≡ step_by edge first second }
{
    if first && !second {
        Some((edge.1, edge.0))
    } else if second && !first {
        Some((edge.0, edge.1))
    } else {
        None
    }
}

/// Replaces the digits of all vertices but the first by their colours.
///
/// The digit of a vertex is the index of its colour among those other than the colour of its neighbour on the way back.
pub(crate) fn colour(walk: &[(u8, u8)], digits: &[u8], colours: &mut [u8])
    requires same { length colours.old ≡ length digits.now }
    requires within { AreWithin (length digits.now) walk.now }
    requires small { All (λ digit. digit < 255) digits.now }
    ensures { colours.new ≡ coloured walk.now digits.now colours.old }
{
    for step in walk {
        let colour = lifted(digits[step.0 as usize], colours[step.1 as usize]);
        colours[step.0 as usize] = colour;
    }
}

/// Replaces the colours of all vertices but the first by their digits.
pub(crate) fn uncolour(walk: &[(u8, u8)], colours: &[u8], digits: &mut [u8])
    requires same { length digits.old ≡ length colours.now }
    requires within { AreWithin (length colours.now) walk.now }
    ensures { digits.new ≡ digits_of walk.now colours.now digits.old }
{
    for step in walk {
        let digit = place_of(colours[step.0 as usize], colours[step.1 as usize]);
        digits[step.0 as usize] = digit;
    }
}

/// The colour with this index among the colours other than `other`, counted upwards from 0.
fn lifted(place: u8, other: u8) -> u8
    requires { place < 255 }
    ensures { result ≡ lifted place other }
{
    if place < other { place } else { place + 1 }
}

/// The index of a colour among the colours other than `other`: one less than `colour` if it is not below `other`.
fn place_of(colour: u8, other: u8) -> u8
    ensures { result ≡ place_of colour other }
{
    if colour < other {
        colour
    } else {
        colour.saturating_sub(1)
    }
}
