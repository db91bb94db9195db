//! The keys of factors.

/// What a word of the table is of. Colours are at most the rank, degrees from 1 to the degree of the table, and the
/// colours of two neighbours differ.
#[derive(Clone, Copy, Debug, PartialEq, Eq, Drop)]
pub enum Key {
    /// The edge of degree `a` between vertices of the colours `i` and `j`.
    Edge {
        i: u8,
        j: u8,
        a: u8,
    },
    /// The flag of an edge of degree `a` at a vertex of colour `c`, whose other end has the colour `u`: the degree over
    /// the difference of the weights of `c` and `u`.
    Flag {
        c: u8,
        u: u8,
        a: u8,
    },
    /// The product of the differences of the weight of `c` to those of the other colours.
    Tangent {
        c: u8,
    },
    /// The vertex of colour `c` without marks and with two edges, of the degrees `a1` and `a2` to vertices of the
    /// colours `c1` and `c2`.
    Pair {
        c: u8,
        c1: u8,
        a1: u8,
        c2: u8,
        a2: u8,
    },
    /// The part of a class at an edge. The class is named by its index in the table's list of classes.
    ClassEdge {
        class: u16,
        i: u8,
        j: u8,
        a: u8,
    },
    /// The part of a class at a vertex of colour `c` with `s` edges, from 1 to the degree of the table.
    ClassVertex {
        class: u16,
        c: u8,
        s: u8,
    },
    /// The vertex of colour `c` with one mark and one edge, of degree `a` to a vertex of colour `u`, under a psi class
    /// to the power 1: the difference of the weights of `u` and `c` over the degree.
    Tip {
        c: u8,
        u: u8,
        a: u8,
    },
}
