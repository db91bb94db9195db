//! Words of vertices.

ghost use Rattle.std.specs.Prelude.{◌≡◌, ◌<◌, ◌≤◌, ◌↔◌, [], ◌∷◌, ◌++◌, length, IsTrue, IsNone, IsSome, IfSome, Some, slice_get};

use std::marker::Model;

/// The most letters of a [`Word`]: a tree with 11 vertices has a word of 9 letters.
pub const MOST_LETTERS: usize = 9;

/// A word of at most nine letters, which are numbers of vertices.
#[derive(Clone, Copy, Debug, PartialEq, Eq)]
pub struct Word {
    letters: [u8; MOST_LETTERS],
    count: usize,
}

impl Model for Word {
    ghost use Rattle.std.specs.Prelude.{ℕ, List, take};
    ghost use Rattle.lists.specs.Padding.{IsPadded};

    ghost Value = { List ℕ };

    ghost use Rattle.prufer.specs.WordFields.{fields_of, fields_of-take};

    ghost view = { λ w. take w.count w.letters };

    ghost invariant = { λ w. IsPadded 0 9 w.count w.letters };

    ghost inverse = { fields_of };

    ghost inverse_ok = { fields_of-take };
}

impl Word {
    /// The word of these letters, if there are at most [`MOST_LETTERS`].
    pub fn of(letters: &[u8]) -> Option<Self>
        ensures none { IsNone result ↔ (MOST_LETTERS < length letters.now) }
        ensures some { IsSome result ↔ (length letters.now ≤ MOST_LETTERS) }
        ensures value { IfSome result (λ word. word ≡ letters.now) }
    {
        if letters.len() > MOST_LETTERS {
            return None;
        }
        let mut kept = [0; MOST_LETTERS];
        kept[..letters.len()].copy_from_slice(letters);
        Some(Word {
            letters: kept,
            count: letters.len(),
        })
    }

    /// The number of letters.
    pub fn len(&self) -> usize
        ensures value { result ≡ length self.now }
        ensures limited { result ≤ MOST_LETTERS }
    {
        self.count
    }

    /// Whether there is no letter, as in the word of a tree with two vertices.
    pub fn is_empty(&self) -> bool
        ensures { IsTrue result ↔ (self.now ≡ []) }
    {
        self.count == 0
    }

    /// The letter at an index, counted from 0.
    pub fn letter(&self, place: usize) -> u8
        requires { place < length self.now }
        ensures { slice_get self.now place ≡ Some result }
    {
        self.letters[place]
    }

    /// The letters.
    pub fn as_slice(&self) -> &[u8]
        ensures value { result.now ≡ self.now }
        ensures limited { length self.now ≤ 9 }
    {
        &self.letters[..self.count]
    }

    /// The word with no letter.
    pub(crate) fn empty() -> Self
        ensures { result ≡ [] }
    {
        Word {
            letters: [0; MOST_LETTERS],
            count: 0,
        }
    }

    /// Puts a letter at the end.
    pub(crate) fn push(&mut self, letter: u8)
        requires { length self.old < 9 }
        ensures { self.new ≡ self.old ++ letter ∷ [] }
    {
        self.letters[self.count] = letter;
        self.count += 1;
    }
}
