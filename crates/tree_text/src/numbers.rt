//! Short lists of small numbers in fixed arrays.

ghost use Rattle.std.specs.Prelude.{◌≡◌, ◌<◌, ◌≤◌, [], ◌∷◌, ◌++◌, length};

use std::marker::Model;

/// The most numbers of a list: a tree has at most 10 degrees, 11 colours and 12 marks.
const MOST: usize = 12;

/// A list of at most 12 numbers. Contracts see it as a list.
#[derive(Clone, Copy)]
pub(crate) struct Numbers {
    items: [u8; MOST],
    count: usize,
}

impl Model for Numbers {
    ghost use Rattle.std.specs.Prelude.{ℕ, List, take};
    ghost use Rattle.lists.specs.Padding.{IsPadded};

    ghost Value = { List ℕ };

    ghost use Rattle.tree_text.specs.ListFields.{numbers_fields, numbers_fields-take};

    ghost view = { λ l. take l.count l.items };

    ghost invariant = { λ l. IsPadded 0 12 l.count l.items };

    ghost inverse = { numbers_fields };

    ghost inverse_ok = { numbers_fields-take };
}

impl Numbers {
    /// No numbers.
    pub(crate) fn empty() -> Self
        ensures { result ≡ [] }
    {
        Numbers {
            items: [0; MOST],
            count: 0,
        }
    }

    /// The numbers, in order.
    pub(crate) fn as_slice(&self) -> &[u8]
        ensures value { result.now ≡ self.now }
        ensures limited { length self.now ≤ 12 }
    {
        &self.items[..self.count]
    }

    /// How many numbers there are.
    pub(crate) fn len(&self) -> usize
        ensures value { result ≡ length self.now }
        ensures limited { result ≤ 12 }
    {
        self.as_slice().len()
    }

    /// These numbers and one more at the end.
    pub(crate) fn with(&self, number: u8) -> Self
        requires { length self.now < 12 }
        ensures { result ≡ self.now ++ number ∷ [] }
    {
        let mut more = *self;
        more.items[more.count] = number;
        more.count += 1;
        more
    }
}
