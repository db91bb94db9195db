//! What stands next in a text that is read byte by byte.

ghost use Rattle.std.specs.Prelude.{◌≡◌};
ghost use Rattle.tree_text.specs.Steps.{letters_of, after_word};

/// A word of the grammar.
#[derive(Clone, Copy)]
pub(crate) enum Word {
    Edges,
    Colours,
    Marks,
}

/// What a number is.
#[derive(Clone, Copy)]
pub(crate) enum Role {
    /// The first end u of an edge.
    FirstEnd,
    /// The second end of an edge with the first end u.
    SecondEnd(u8),
    /// The degree of an edge (u, v).
    Degree(u8, u8),
    /// The colour of a vertex.
    Colour,
    /// The vertex of a mark.
    Mark,
}

/// What has been read last.
#[derive(Clone, Copy)]
pub(crate) enum Stage {
    /// So many letters of a word, but not the space after it.
    Inside(Word, usize),
    /// All that stands before a number of this role.
    Start(Role),
    /// A number of this role, which may go on.
    Number(Role, u8),
    /// An edge and a space, after which another edge or the colours begin.
    MoreEdges,
    /// A colour and a space, after which another colour or the marks begin.
    MoreColours,
    /// `marks` and a space.
    FirstMark,
    /// The `-` that stands for no marks.
    NoMarks,
}

impl Word {
    /// The letters of the word and the space after it.
    pub(crate) fn letters(self) -> &'static [u8]
        ensures { result.now ≡ letters_of self }
    {
        match self {
            Word::Edges => b"edges ",
            Word::Colours => b"colours ",
            Word::Marks => b"marks ",
        }
    }

    /// What stands after the space.
    pub(crate) fn after(self) -> Stage
        ensures { result ≡ after_word self }
    {
        match self {
            Word::Edges => Stage::Start(Role::FirstEnd),
            Word::Colours => Stage::Start(Role::Colour),
            Word::Marks => Stage::FirstMark,
        }
    }
}
