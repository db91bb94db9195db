//! Short lists of pairs of small numbers in fixed arrays.

ghost use Rattle.std.specs.Prelude.{◌≡◌, ◌<◌, ◌≤◌, [], ◌∷◌, ◌++◌, length};

use prufer::MOST_EDGES;
use std::marker::Model;

/// A list of at most ten pairs, which need not be the edges of a tree. Contracts see it as a list.
#[derive(Clone, Copy)]
pub(crate) struct Pairs {
    items: [(u8, u8); MOST_EDGES],
    count: usize,
}

impl Model for Pairs {
    ghost use Rattle.std.specs.Prelude.{ℕ, List, take};
    ghost use Rattle.lists.specs.Padding.{IsPadded};

    ghost Value = { List (ℕ × ℕ) };

    ghost use Rattle.tree_text.specs.ListFields.{pairs_fields, pairs_fields-take};

    ghost view = { λ l. take l.count l.items };

    ghost invariant = { λ l. IsPadded (0, 0) 10 l.count l.items };

    ghost inverse = { pairs_fields };

    ghost inverse_ok = { pairs_fields-take };
}

impl Pairs {
    /// No pairs.
    pub(crate) fn empty() -> Self
        ensures { result ≡ [] }
    {
        Pairs {
            items: [(0, 0); MOST_EDGES],
            count: 0,
        }
    }

    /// The pairs, in order.
    pub(crate) fn as_slice(&self) -> &[(u8, u8)]
        ensures value { result.now ≡ self.now }
        ensures limited { length self.now ≤ 10 }
    {
        &self.items[..self.count]
    }

    /// How many pairs there are.
    pub(crate) fn len(&self) -> usize
        ensures value { result ≡ length self.now }
        ensures limited { result ≤ 10 }
    {
        self.as_slice().len()
    }

    /// These pairs and one more at the end.
    pub(crate) fn with(&self, pair: (u8, u8)) -> Self
        requires { length self.now < 10 }
        ensures { result ≡ self.now ++ pair ∷ [] }
    {
        let mut more = *self;
        more.items[more.count] = pair;
        more.count += 1;
        more
    }
}
