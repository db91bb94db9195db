//! Trees of small shapes, numbered by hand.

use crate::{Shape, Tree, write_text};
use std::alloc::Global;
use std::test::Fail;

/// The shape of three numbers.
fn shape(r: u8, d: u8, m: u8) -> Result<Shape, Fail> {
    Ok(Shape::new(r, d, m).ok().ok_or("refused")?)
}

/// The text of a tree.
fn text(alloc: Global, tree: &Tree) -> Result<Vec<u8>, Fail> {
    let mut text = Vec::new(alloc);
    write_text(tree, &mut text).ok().ok_or("want of memory")?;
    Ok(text)
}

#[test]
fn writes_and_numbers_trees(rt: HostRuntime) -> Result<(), Fail> {
    let shape = shape(3, 3, 1)?;
    let table: [(u64, &[u8]); 4] = [
        (0, b"edges 0-1:3 colours 0 1 marks 0"),
        (245, b"edges 0-1:2 1-2:1 colours 0 1 0 marks 2"),
        (5121, b"edges 0-2:1 1-2:1 2-3:1 colours 1 0 2 3 marks 1"),
        (7583, b"edges 0-3:1 1-3:1 2-3:1 colours 3 3 3 2 marks 3"),
    ];
    for (k, line) in table {
        if k >= shape.count() {
            return Err("too great a number".into());
        }
        let tree = shape.tree(k);
        let written = text(rt.alloc(), &tree)?;
        assert_eq!(rt; written.as_slice(), line);
        assert_eq!(rt; shape.number(&tree), Ok(k));
    }
    Ok(())
}

#[test]
fn one_tree_goes_through_all_numbers(rt: HostRuntime) -> Result<(), Fail> {
    let shape = shape(3, 3, 1)?;
    if shape.count() != 7584 {
        return Err("another count".into());
    }
    let mut tree = shape.tree(0);
    for k in 0..7583 {
        assert_eq!(rt; shape.number(&tree), Ok(k));
        shape.next(k, &mut tree);
        assert_eq!(rt; tree, shape.tree(k + 1));
    }
    assert_eq!(rt; shape.number(&tree), Ok(7583));
    Ok(())
}
