//! Contributions by exact fractions, whose tops and bottoms were computed as whole numbers of any size.

use super::*;
use decorated_tree::{Shape, Tree};
use prufer::Edges;
use residue::{Class, Modulus, Power, Powers, Setup, Term, Terms};
use std::alloc::Global;
use std::process::Abort;
use std::test::Fail;
use tree_parts::TreeParts;

/// 2^62 - 1 = 3 * 715827883 * 2147483647, the greatest modulus.
const GREATEST: u64 = 4_611_686_018_427_387_903;

/// A tree that is written down by hand.
struct Drawn {
    /// The greatest colour, the sum of the degrees and the number of marks.
    shape: (u8, u8, u8),
    edges: &'static [(u8, u8)],
    colours: [u8; 11],
    degrees: [u8; 10],
    marks: [u8; 12],
}

const LINE: &Drawn = &Drawn {
    shape: (1, 2, 0),
    edges: &[(0, 1)],
    colours: [1, 0, 0, 0, 0, 0, 0, 0, 0, 0, 0],
    degrees: [2, 0, 0, 0, 0, 0, 0, 0, 0, 0],
    marks: [0; 12],
};

const MARKED_LINE: &Drawn = &Drawn {
    shape: (1, 2, 1),
    edges: &[(0, 1)],
    colours: [0, 1, 0, 0, 0, 0, 0, 0, 0, 0, 0],
    degrees: [2, 0, 0, 0, 0, 0, 0, 0, 0, 0],
    marks: [1, 0, 0, 0, 0, 0, 0, 0, 0, 0, 0, 0],
};

const PATH: &Drawn = &Drawn {
    shape: (1, 2, 0),
    edges: &[(0, 1), (0, 2)],
    colours: [0, 1, 1, 0, 0, 0, 0, 0, 0, 0, 0],
    degrees: [1, 1, 0, 0, 0, 0, 0, 0, 0, 0],
    marks: [0; 12],
};

const OTHER_PATH: &Drawn = &Drawn {
    shape: (1, 2, 0),
    edges: &[(0, 1), (0, 2)],
    colours: [1, 0, 0, 0, 0, 0, 0, 0, 0, 0, 0],
    degrees: [1, 1, 0, 0, 0, 0, 0, 0, 0, 0],
    marks: [0; 12],
};

const MARKED_PATH: &Drawn = &Drawn {
    shape: (1, 2, 4),
    edges: &[(0, 1), (0, 2)],
    colours: [1, 0, 0, 0, 0, 0, 0, 0, 0, 0, 0],
    degrees: [1, 1, 0, 0, 0, 0, 0, 0, 0, 0],
    marks: [2, 2, 2, 0, 0, 0, 0, 0, 0, 0, 0, 0],
};

const STAR: &Drawn = &Drawn {
    shape: (4, 6, 4),
    edges: &[(0, 3), (1, 3), (2, 3), (3, 4)],
    colours: [0, 1, 2, 3, 4, 0, 0, 0, 0, 0, 0],
    degrees: [1, 1, 3, 1, 0, 0, 0, 0, 0, 0],
    marks: [3, 3, 0, 4, 0, 0, 0, 0, 0, 0, 0, 0],
};

/// The parts of a tree that is written down by hand.
fn parts_of(rt: &impl Abort, drawn: &Drawn) -> Result<TreeParts, Fail> {
    let (r, d, m) = drawn.shape;
    let shape = Shape::new(r, d, m).ok().ok_or("refused")?;
    let edges = Edges::of(drawn.edges).ok_or("no edges")?;
    let tree = Tree {
        n: edges.len() as u8 + 1,
        edges,
        colours: drawn.colours,
        degrees: drawn.degrees,
        m,
        marks: drawn.marks,
    };
    assert!(rt; shape.d() <= 10 && shape.m() <= 12);
    assert!(rt; shape.number(&tree).is_ok());
    Ok(TreeParts::of(&tree, shape.r()))
}

fn power(class: Class, power: u8) -> Power {
    Power { class, power }
}

fn term(alloc: Global, coefficient: i64, powers: &[Power]) -> Result<Term, Fail> {
    let classes = Powers::of(Vec::from_slice(alloc, powers)?);
    Ok(Term {
        coefficient,
        classes,
    })
}

fn residue_at(
    rt: &impl Abort,
    weights: &[i64],
    terms: &Terms,
    drawn: &Drawn,
    modulus: u64,
) -> Result<Option<u64>, Fail> {
    let setup = Setup::new(weights)?;
    let parts = parts_of(rt, drawn)?;
    assert!(rt; parts.rank() <= setup.rank());
    let marks = parts.mark_count();
    if !are_terms_for(terms, marks) {
        return Err("beyond the limits".into());
    }
    Ok(contribution(&setup, terms, &parts, &Modulus::new(modulus)?).ok())
}

#[test]
fn one_term_without_psi_classes(rt: HostRuntime) -> Result<(), Fail> {
    let two = [1, 3];
    let five = [1, 10, 100, 1000, 10_000];
    let r1 = power(Class::R1 { k: 1 }, 2);
    let quintic = power(Class::Hypersurface { b: 5 }, 1);
    for (weights, coefficient, class, drawn, modulus, residue) in [
        // -1/4 and 1/48 by hand, and 9/48 if the vertex in the middle has the colour 1.
        (two.as_slice(), 1, r1, LINE, 101, Some(25)),
        (two.as_slice(), 1, r1, LINE, 1001, Some(250)),
        (two.as_slice(), 1, r1, PATH, 101, Some(40)),
        (two.as_slice(), 1, r1, PATH, 1001, Some(146)),
        (two.as_slice(), 1, r1, OTHER_PATH, 101, Some(57)),
        (five.as_slice(), 7, quintic, STAR, 9, None),
        (five.as_slice(), 7, quintic, STAR, GREATEST, None),
        // The bottom has to be a unit even if the coefficient is 0.
        ([1, 4].as_slice(), 0, r1, PATH, 9, None),
    ] {
        let alloc = rt.alloc();
        let terms = Terms::of(vec![in alloc; term(alloc, coefficient, &[class])?]?);
        let found = residue_at(&rt, weights, &terms, drawn, modulus)?;
        assert_eq!(rt; found, residue, "{class:?} modulo {modulus}");
    }
    Ok(())
}

#[test]
fn psi_classes(rt: HostRuntime) -> Result<(), Fail> {
    let alloc = rt.alloc();
    let two = [1, 3];
    let psi = |mark: u8| Class::Psi { mark };
    let one = Terms::of(vec![in alloc; term(alloc, 1, &[power(psi(1), 1)])?]?);
    assert_eq!(rt;
        residue_at(&rt, &two, &one, MARKED_PATH, 101)?,
        Some(10),
        "one psi class"
    );
    let cube = Terms::of(vec![in alloc; term(alloc, 1, &[power(psi(1), 3)])?]?);
    assert_eq!(rt;
        residue_at(&rt, &two, &cube, MARKED_LINE, 101)?,
        Some(19),
        "at an end"
    );
    let both = Terms::of(vec![in alloc; term(alloc, 1, &[power(psi(1), 1), power(psi(2), 1)])?]?);
    assert_eq!(rt;
        residue_at(&rt, &two, &both, MARKED_PATH, 101)?,
        Some(0),
        "above the dimension"
    );
    Ok(())
}
