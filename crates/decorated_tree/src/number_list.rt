//! Short lists of numbers in fixed arrays: the digits of a number of a tree, their bases, and the numbers of trees with
//! so many vertices.

ghost use Rattle.std.specs.Prelude.{◌≡◌, ◌+◌, ◌<◌, ◌≤◌, [], ◌∷◌, ◌++◌, length, replicate};

use std::marker::Model;

/// The most numbers of a list, which is the most digits of a number of a tree: 9 letters, 11 colours, a rank, 12 marks.
pub(crate) const MOST: usize = 33;

/// A list of at most 33 numbers. Contracts see it as a list.
#[derive(Clone, Copy, Debug, PartialEq, Eq)]
pub(crate) struct NumberList {
    items: [u64; MOST],
    count: usize,
}

impl Model for NumberList {
    ghost use Rattle.std.specs.Prelude.{ℕ, List, take};
    ghost use Rattle.trees.specs.Padding.{IsPadded};

    ghost Value = { List ℕ };

    ghost use Rattle.decorated_tree.specs.NumberListFields.{fields_of, fields_of-take};

    ghost view = { λ l. take l.count l.items };

    ghost invariant = { λ l. IsPadded 0 33 l.count l.items };

    ghost inverse = { fields_of };

    ghost inverse_ok = { fields_of-take };
}

impl NumberList {
    /// The empty list.
    pub(crate) fn empty() -> Self
        ensures { result ≡ [] }
    {
        NumberList {
            items: [0; MOST],
            count: 0,
        }
    }

    /// The numbers of the list, in order.
    pub(crate) fn as_slice(&self) -> &[u64]
        ensures value { result.now ≡ self.now }
        ensures limited { length self.now ≤ 33 }
    {
        &self.items[..self.count]
    }

    /// Puts a number at the end.
    pub(crate) fn push(&mut self, number: u64)
        requires { length self.old < 33 }
        ensures { self.new ≡ self.old ++ number ∷ [] }
    {
        self.items[self.count] = number;
        self.count += 1;
    }

    /// Puts a number at the end so many times.
    pub(crate) fn push_times(&mut self, number: u64, times: u8)
        requires { length self.old + times ≤ 33 }
        ensures { self.new ≡ self.old ++ replicate times number }
    {
        for _ in 0..times {
            self.push(number);
        }
    }

    /// Puts small numbers at the end.
    pub(crate) fn extend(&mut self, numbers: &[u8])
        requires { length self.old + length numbers.now ≤ 33 }
        ensures { self.new ≡ self.old ++ numbers.now }
    {
        for number in numbers {
            self.push(*number as u64);
        }
    }
}
