//! Degrees by hand.

use crate::Class;

#[test]
fn degrees_of_classes(rt: HostRuntime) {
    assert_eq!(rt; Class::Mark { mark: 2 }.degree(10), 1);
    assert_eq!(rt;
        Class::Hypersurface { b: 5 }.degree(2),
        11,
        "sections of O(10) on a line"
    );
    assert_eq!(rt; Class::Incidence { q: 2 }.degree(3), 1);
    assert_eq!(rt; Class::R1 { k: 1 }.degree(2), 1);
    assert_eq!(rt; Class::R1 { k: 1 }.degree(1), 0);
    assert_eq!(rt; Class::Contact.degree(3), 5);
    assert_eq!(rt; Class::Psi { mark: 1 }.degree(7), 1);
}
