use crate::read;
use residue::{Class, Term};
use std::test::Fail;

mod writing;

const ALL_KINDS: &str = "version = 2
rank = 2
degree = 1
marks = 2
weights = [-1, 0, 7]
moduli = [9, 11]
numerator_bound = 7
denominator_bound = 6

[[integral]]
term = [{ classes = [{ kind = 'mark', mark = 1 }, { kind = 'psi', mark = 2 }, { kind = 'incidence', q = 3 }] }]

[[integral]]
[[integral.term]]
coefficient = -3
classes = [{ kind = 'contact' }, { kind = 'hypersurface', b = 1 }, { kind = 'r1', k = 2 }]
[[integral.term]]
classes = [{ kind = 'contact', power = 4 }]
";

fn are_powers(term: &Term, wanted: &[(Class, u8)]) -> bool {
    let classes = term.classes.as_slice();
    classes.len() == wanted.len()
        && classes
            .iter()
            .zip(wanted)
            .all(|(power, wanted)| (power.class, power.power) == *wanted)
}

#[test]
fn reads_each_kind_of_class(rt: HostRuntime) -> Result<(), Fail> {
    let problem = read(rt.alloc(), ALL_KINDS.as_bytes())
        .ok()
        .ok_or("refused")?;
    assert_eq!(rt; problem.shape.m(), 2);
    assert_eq!(rt; problem.setup.weight(0), -1);
    assert_eq!(rt; problem.moduli.len(), 2);
    assert_eq!(rt; problem.moduli.get(1).get(), 11);
    let first = [
        (Class::Mark { mark: 1 }, 1),
        (Class::Psi { mark: 2 }, 1),
        (Class::Incidence { q: 3 }, 1),
    ];
    let second = [
        (Class::Contact, 1),
        (Class::Hypersurface { b: 1 }, 1),
        (Class::R1 { k: 2 }, 1),
    ];
    let integrals = problem.integrals.as_slice();
    let [one, two] = integrals else {
        return Err("two integrals were written".into());
    };
    let ([term], [other, last]) = (one.as_slice(), two.as_slice()) else {
        return Err("one term and two were written".into());
    };
    assert_eq!(rt;
        (term.coefficient, other.coefficient, last.coefficient),
        (1, -3, 1)
    );
    assert!(rt; are_powers(term, &first));
    assert!(rt; are_powers(other, &second));
    assert!(rt; are_powers(last, &[(Class::Contact, 4)]));
    Ok(())
}
