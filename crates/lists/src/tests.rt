//! The list type by hand.

use crate::{Bytes, Items};
use std::test::Fail;

#[test]
fn items_in_order(rt: HostRuntime) -> Result<(), Fail> {
    let items: Items<u64> = Items::of(vec![in rt.alloc(); 7, 8, 9]?);
    assert_eq!(rt; items.len(), 3);
    assert_eq!(rt; [*items.get(0), *items.get(1), *items.get(2)], [7, 8, 9]);
    assert_eq!(rt; items.as_slice(), [7, 8, 9].as_slice());
    assert!(rt; !items.is_empty());
    assert!(rt; Bytes::of(Vec::new(rt.alloc())).is_empty());
    Ok(())
}
