//! Where a table stands in a problem text.

/// Where a table stands. Integrals, terms and the classes of a term are counted from 0, the terms through all
/// integrals.
#[derive(Clone, Copy, Debug, PartialEq, Eq, Drop)]
pub enum Place {
    /// At the top.
    Top,
    /// An integral, of a text of version 2.
    Integral { integral: u32 },
    /// A term.
    Term { term: u32 },
    /// A class of a term.
    Class { term: u32, class: u32 },
}
