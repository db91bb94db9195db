//! The marks at each vertex.

ghost use Rattle.std.specs.Prelude.{◌≡◌, ℕ, ◌<◌, ◌≤◌, ◌++◌, ◌∷◌, [], filter, length, slice_index_or, slice_set, All};
ghost use Rattle.lists.specs.Ranges.{counted_from};
ghost use Rattle.tree_parts.specs.Marks.{is_at};

use std::marker::Model;

/// At most twelve marks at a vertex, which are counted from 1.
#[derive(Clone, Copy)]
pub(crate) struct Marks {
    items: [u8; 12],
    count: u8,
}

impl Model for Marks {
    ghost use Rattle.std.specs.Prelude.{ℕ, List, take};
    ghost use Rattle.lists.specs.Padding.{IsPadded};

    ghost Value = { List ℕ };

    ghost use Rattle.tree_parts.specs.MarksFields.{fields_of, fields_of-take};

    ghost view = { λ m. take m.count m.items };

    ghost invariant = { λ m. IsPadded 0 12 m.count m.items };

    ghost inverse = { fields_of };

    ghost inverse_ok = { fields_of-take };
}

impl Marks {
    /// No marks.
    fn none() -> Self
        ensures { result ≡ [] }
    {
        Marks {
            items: [0; 12],
            count: 0,
        }
    }

    /// Puts a mark after the others.
    fn push(&mut self, mark: u8)
        requires { length self.old < 12 }
        ensures { self.new ≡ self.old ++ mark ∷ [] }
    {
        self.items[self.count as usize] = mark;
        self.count += 1;
    }

    /// The marks.
    pub(crate) fn as_slice(&self) -> &[u8]
        ensures value { result.now ≡ self.now }
        ensures limited { length self.now ≤ 12 }
    {
        &self.items[..self.count as usize]
    }
}

/// The marks at each vertex, in their order, if the vertex of each is given.
pub(crate) fn marks_by_vertex(vertices: &[u8]) -> [Marks; 11]
    requires few { length vertices.now ≤ 12 }
    requires within { All (λ v. v < 11) vertices.now }
    ensures value { (v : ℕ) → v < 11
        → slice_index_or result v [] ≡ filter (is_at vertices.now v) (counted_from 1 (length vertices.now)) }
    ensures long { length result ≡ 11 }
{
    let mut marks = [Marks::none(); 11];
    for place in 0..vertices.len() {
        push_mark(&mut marks, vertices[place], place as u8 + 1);
    }
    marks
}

/// Puts a mark at a vertex.
fn push_mark(marks: &mut [Marks; 11], vertex: u8, mark: u8)
    requires long { length marks.old ≡ 11 }
    requires vertex { vertex < 11 }
    requires few { length (slice_index_or marks.old vertex []) < 12 }
    ensures { marks.new ≡ slice_set marks.old vertex (slice_index_or marks.old vertex [] ++ mark ∷ []) }
{
    marks[vertex as usize].push(mark);
}
