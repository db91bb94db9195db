//! Tests of whether a key is one of a table of given parameters.

ghost use Rattle.std.specs.Prelude.{◌↔◌, ◌<◌, length, IsTrue};
ghost use Rattle.factor_table.specs.KeyPlaces.{IsEnd};
ghost use Rattle.factor_table.specs.Factors.{sizes_of, HasParts, class_at, IsKeyOf};

use crate::key::Key;
use crate::parameters::Parameters;
use residue::Class;

impl Parameters {
    /// Whether a key is one of a table of these parameters: its colours are at most the rank, its degrees from 1 to the
    /// degree, the colours of neighbours differ, and its class is in the list and has parts.
    pub fn has_key(&self, key: Key) -> bool
        ensures { IsTrue result ↔ IsKeyOf self.now key }
    {
        match key {
            Key::Edge { i, j, a } => self.is_colour(i) && self.is_end(j, a) && i != j,
            Key::Flag { c, u, a } => self.is_colour(c) && self.is_end(u, a) && u != c,
            Key::Tangent { c } => self.is_colour(c),
            Key::Pair { c, c1, a1, c2, a2 } => {
                let ends = self.is_end(c1, a1) && self.is_end(c2, a2);
                self.is_colour(c) && ends && c1 != c && c2 != c
            }
            Key::ClassEdge { class, i, j, a } => {
                let edge = self.is_colour(i) && self.is_end(j, a) && i != j;
                edge && self.is_class_with_parts(class)
            }
            Key::ClassVertex { class, c, s } => {
                self.is_end(c, s) && self.is_class_with_parts(class)
            }
            Key::Tip { c, u, a } => self.is_colour(c) && self.is_end(u, a) && u != c,
        }
    }

    // Whether this is a colour.
    fn is_colour(&self, c: u8) -> bool
        ensures { IsTrue result ↔ (c < length self.now.setup) }
    {
        c <= self.setup.rank()
    }

    // Whether this is a colour, with a degree.
    fn is_end(&self, u: u8, a: u8) -> bool
        ensures { IsTrue result ↔ IsEnd (sizes_of self.now) u a }
    {
        self.is_colour(u) && 1 <= a && a <= self.degree
    }

    // Whether there is a class with parts at this index.
    fn is_class_with_parts(&self, class: u16) -> bool
        ensures { IsTrue result ↔ ((class < length self.now.classes) × HasParts (class_at self.now class)) }
    {
        (class as usize) < self.classes.len() && has_parts(self.classes.get(class as usize))
    }
}

/// Whether a class has a part at each edge and each vertex, and its parameter, if it has one, is from 1 to 64.
pub fn has_parts(class: &Class) -> bool
    ensures { IsTrue result ↔ HasParts class.now }
{
    match *class {
        Class::Hypersurface { b } => 1 <= b && b <= 64,
        Class::R1 { k } => 1 <= k && k <= 64,
        Class::Contact => true,
        Class::Mark { .. } | Class::Incidence { .. } | Class::Psi { .. } => false,
    }
}
