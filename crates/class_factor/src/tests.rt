//! Values by exact fractions, whose tops and bottoms were computed as whole numbers of any size.

use super::*;
use decorated_tree::{Shape, Tree};
use prufer::Edges;
use residue::{Class, Modulus, Power, Powers, Setup, Term};
use std::process::Abort;
use std::test::Fail;
use tree_parts::TreeParts;

const R1: Class = Class::R1 { k: 1 };

fn at_edge(
    rt: &impl Abort,
    weights: &[i64],
    class: &Class,
    ends: (u8, u8),
    a: u8,
    modulus: u64,
) -> Result<Option<u64>, Fail> {
    let setup = Setup::new(weights)?;
    let (i, j) = ends;
    assert!(rt; is_class_for(class, 12));
    assert!(rt; i <= setup.rank() && j <= setup.rank() && i != j && 1 <= a && a <= 10);
    Ok(edge_part(&setup, class, i, j, a, &Modulus::new(modulus)?).ok())
}

fn at_vertex(
    rt: &impl Abort,
    weights: &[i64],
    class: &Class,
    c: u8,
    s: u8,
    modulus: u64,
) -> Result<Option<u64>, Fail> {
    let setup = Setup::new(weights)?;
    assert!(rt; is_class_for(class, 12));
    assert!(rt; c <= setup.rank() && 1 <= s && s <= 10);
    Ok(vertex_part(&setup, class, c, s, &Modulus::new(modulus)?).ok())
}

/// A tree that is written down by hand.
struct Drawn {
    /// The greatest colour, the sum of the degrees and the number of marks.
    shape: (u8, u8, u8),
    edges: &'static [(u8, u8)],
    colours: [u8; 11],
    degrees: [u8; 10],
    marks: [u8; 12],
}

/// A tree of one edge of degree 2.
const LINE_OF_DEGREE_2: &Drawn = &Drawn {
    shape: (1, 2, 0),
    edges: &[(0, 1)],
    colours: [0, 1, 0, 0, 0, 0, 0, 0, 0, 0, 0],
    degrees: [2, 0, 0, 0, 0, 0, 0, 0, 0, 0],
    marks: [0; 12],
};

/// A tree of two edges, with a mark at an end.
const PATH: &Drawn = &Drawn {
    shape: (1, 2, 1),
    edges: &[(0, 1), (0, 2)],
    colours: [1, 0, 0, 0, 0, 0, 0, 0, 0, 0, 0],
    degrees: [1, 1, 0, 0, 0, 0, 0, 0, 0, 0],
    marks: [2, 0, 0, 0, 0, 0, 0, 0, 0, 0, 0, 0],
};

/// The parts of a tree that is written down by hand.
fn parts_of(rt: &impl Abort, drawn: &Drawn) -> Result<TreeParts, Fail> {
    let (r, d, m) = drawn.shape;
    let shape = Shape::new(r, d, m).ok().ok_or("refused")?;
    let edges = Edges::of(drawn.edges).ok_or("no edges")?;
    let tree = Tree {
        n: edges.len() as u8 + 1,
        edges,
        colours: drawn.colours,
        degrees: drawn.degrees,
        m,
        marks: drawn.marks,
    };
    assert!(rt; shape.d() <= 10 && shape.m() <= 12);
    assert!(rt; shape.number(&tree).is_ok());
    Ok(TreeParts::of(&tree, shape.r()))
}

fn value_at(
    rt: &impl Abort,
    weights: &[i64],
    class: &Class,
    drawn: &Drawn,
    modulus: u64,
) -> Result<Option<u64>, Fail> {
    let setup = Setup::new(weights)?;
    let modulus = Modulus::new(modulus)?;
    let parts = parts_of(rt, drawn)?;
    assert!(rt; parts.rank() <= setup.rank());
    assert!(rt; is_class_for(class, parts.mark_count()));
    Ok(
        whole_ratio(&setup, class, &parts, &modulus)
            .residue(&modulus)
            .ok(),
    )
}

#[test]
fn values_of_classes(rt: HostRuntime) -> Result<(), Fail> {
    for (class, drawn, modulus, residue) in [
        (R1, LINE_OF_DEGREE_2, 101, 99),
        (R1, PATH, 101, 98),
        (Class::Mark { mark: 1 }, PATH, 101, 1),
        (Class::Psi { mark: 1 }, PATH, 101, 1),
        (Class::Incidence { q: 2 }, PATH, 101, 8),
        (Class::Incidence { q: 3 }, LINE_OF_DEGREE_2, 1001, 26),
    ] {
        let found = value_at(&rt, &[1, 3], &class, drawn, modulus)?;
        assert_eq!(rt; found, Some(residue), "{class:?} modulo {modulus}");
    }
    Ok(())
}

fn term_at(
    rt: &impl Abort,
    weights: &[i64],
    term: &Term,
    drawn: &Drawn,
    modulus: u64,
) -> Result<Option<u64>, Fail> {
    let setup = Setup::new(weights)?;
    let modulus = Modulus::new(modulus)?;
    let parts = parts_of(rt, drawn)?;
    assert!(rt; parts.rank() <= setup.rank());
    assert!(rt; are_powers_for(term.classes.as_slice(), parts.mark_count()));
    Ok(
        term_ratio(&setup, term, &parts, &modulus)
            .residue(&modulus)
            .ok(),
    )
}

#[test]
fn values_of_terms(rt: HostRuntime) -> Result<(), Fail> {
    let alloc = rt.alloc();
    let powers = vec![in alloc;
        Power {
            class: R1,
            power: 2
        },
    ]?;
    let square = Term {
        coefficient: 1,
        classes: Powers::of(powers),
    };
    let found = term_at(&rt, &[1, 3], &square, LINE_OF_DEGREE_2, 101)?;
    assert_eq!(rt; found, Some(4));
    let number = Term {
        coefficient: -3,
        classes: Powers::of(Vec::new(alloc)),
    };
    let found = term_at(&rt, &[1, 3], &number, LINE_OF_DEGREE_2, 101)?;
    assert_eq!(rt; found, Some(98));
    Ok(())
}
