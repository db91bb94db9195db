//! Why a text is no text of a tree.

/// Why a text is not that of a decorated tree of a shape.
#[derive(Clone, Copy, Debug, PartialEq, Eq)]
pub enum TreeTextError {
    /// The text is not of the grammar. The place is the length of its longest prefix that a text of the grammar begins
    /// with: the index of the first byte that is wrong, or the length of the text if it ends too early.
    Syntax { place: u32 },
    /// The text is of the grammar, and that of no decorated tree of the shape.
    NotOfShape,
}
