//! Parts of trees that were written down by hand.

use super::*;
use decorated_tree::{Shape, Tree};
use prufer::Edges;
use std::process::Abort;
use std::test::Fail;

/// A star of five vertices with four edges, the centre third, of rank 5, the sum 6 of degrees and two marks.
fn star() -> Result<Tree, Fail> {
    let edges = Edges::of(&[(0, 3), (1, 3), (2, 3), (3, 4)]).ok_or("no edges")?;
    Ok(Tree {
        n: 5,
        edges,
        colours: [0, 1, 2, 5, 4, 0, 0, 0, 0, 0, 0],
        degrees: [1, 3, 1, 1, 0, 0, 0, 0, 0, 0],
        m: 2,
        marks: [3, 0, 0, 0, 0, 0, 0, 0, 0, 0, 0, 0],
    })
}

/// The parts of a tree of a shape.
fn parts_of(rt: &impl Abort, shape: &Shape, tree: &Tree) -> TreeParts {
    assert!(rt; shape.d() <= 10 && shape.m() <= 12);
    assert!(rt; shape.number(tree).is_ok());
    TreeParts::of(tree, shape.r())
}

#[test]
fn ends_and_marks_at_each_vertex(rt: HostRuntime) -> Result<(), Fail> {
    let shape = Shape::new(5, 6, 2).ok().ok_or("refused")?;
    let star = parts_of(&rt, &shape, &star()?);
    for (vertex, colour, ends, marks) in [
        (0, 0, [(5, 1)].as_slice(), [2].as_slice()),
        (1, 1, [(5, 3)].as_slice(), [].as_slice()),
        (2, 2, [(5, 1)].as_slice(), [].as_slice()),
        (
            3,
            5,
            [(0, 1), (1, 3), (2, 1), (4, 1)].as_slice(),
            [1].as_slice(),
        ),
        (4, 4, [(5, 1)].as_slice(), [].as_slice()),
    ] {
        assert!(rt; vertex < star.vertices());
        assert_eq!(rt; star.colour(vertex), colour, "colour of {vertex}");
        assert!(rt; star.ends_at(vertex) == ends, "ends at {vertex}");
        assert_eq!(rt;
            star.valence(vertex) as usize,
            ends.len(),
            "valence of {vertex}"
        );
        assert!(rt; star.marks_at(vertex) == marks, "marks at {vertex}");
    }
    assert_eq!(rt; star.mark_count(), 2);
    for (mark, vertex) in [(1, 3), (2, 0)] {
        assert!(rt; 1 <= mark && mark <= star.mark_count());
        assert_eq!(rt; star.vertex_of(mark), vertex, "mark {mark}");
    }
    Ok(())
}
