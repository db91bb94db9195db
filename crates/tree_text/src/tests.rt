//! Texts, each with the tree or the refusal that an independent program gives.

use crate::{TreeTextError, read, refusal_line};
use decorated_tree::Shape;
use std::test::Fail;

/// The shape of three numbers.
fn shape(r: u8, d: u8, m: u8) -> Result<Shape, Fail> {
    Ok(Shape::new(r, d, m).ok().ok_or("refused")?)
}

#[test]
fn reads_trees(rt: HostRuntime) -> Result<(), Fail> {
    let table: [((u8, u8, u8), u64, &[u8]); 7] = [
        ((1, 2, 0), 1, b"edges 0-1:2 colours 1 0 marks -"),
        ((1, 2, 0), 4, b"edges 0-1:1 1-2:1 colours 0 1 0 marks -"),
        ((3, 3, 1), 0, b"edges 0-1:3 colours 0 1 marks 0"),
        (
            (3, 3, 1),
            5121,
            b"edges 0-2:1 1-2:1 2-3:1 colours 1 0 2 3 marks 1",
        ),
        ((1, 10, 0), 1, b"edges 0-1:10 colours 1 0 marks -"),
        (
            (1, 1, 12),
            5633,
            b"edges 0-1:1 colours 1 0 marks 0 1 1 0 0 0 0 0 0 0 0 1",
        ),
        (
            (12, 2, 1),
            5492,
            b"edges 0-1:1 0-2:1 colours 11 12 10 marks 2",
        ),
    ];
    for ((r, d, m), k, text) in table {
        let shape = shape(r, d, m)?;
        if k >= shape.count() {
            return Err("too great a number".into());
        }
        assert_eq!(rt; read(text, &shape), Ok(shape.tree(k)));
    }
    Ok(())
}

/// Asserts that the texts are not of the grammar, each with the length of its longest prefix that begins one.
macro_rules! assert_places {
    ($rt:expr, $table:expr) => {
        let shape = shape(1, 2, 0)?;
        for (text, place) in $table {
            assert_eq!($rt; read(text, &shape), Err(TreeTextError::Syntax { place }));
        }
    };
}

#[test]
fn tells_why_a_text_is_refused(rt: HostRuntime) -> Result<(), Fail> {
    let syntax = refusal_line(rt.alloc(), &TreeTextError::Syntax { place: 12 })
        .ok()
        .ok_or("want of memory")?;
    assert_eq!(rt; syntax.as_slice(), b"tree refused 1 Syntax 12".as_slice());
    let other = refusal_line(rt.alloc(), &TreeTextError::NotOfShape)
        .ok()
        .ok_or("want of memory")?;
    assert_eq!(rt; other.as_slice(), b"tree refused 2 NotOfShape".as_slice());
    Ok(())
}
