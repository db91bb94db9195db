//! The texts of sums whose residues and fractions are known.

ghost use Rattle.std.specs.Bool.{OnTrue};
ghost use Rattle.problem.specs.Problems.{view as problem_view};
ghost use Rattle.report.specs.Fractions.{AreSumResidues};

use super::*;
use decorated_tree::Shape;
use problem::Problem;
use residue::{Class, Integrals, Moduli, Modulus, Power, Powers, Setup, Term, Terms};
use std::alloc::Global;
use std::test::Fail;

/// What a problem is made of: an integral for each coefficient, of a class to a power.
#[derive(Clone, Copy, Drop)]
struct Parts {
    shape: (u8, u8, u8),
    weights: &'static [i64],
    moduli: &'static [u64],
    bounds: (u64, u64),
    coefficients: &'static [i64],
    class: Option<Power>,
}

// Double covers of a line, by the square of the first direct image of O(-1).
const COVERS: Parts = Parts {
    shape: (1, 2, 0),
    weights: &[1, 3],
    moduli: &[101, 1001],
    bounds: (100, 100),
    coefficients: &[1],
    class: Some(Power {
        class: Class::R1 { k: 1 },
        power: 2,
    }),
};

fn problem_of(alloc: Global, parts: &Parts) -> Result<Problem, Fail> {
    let (r, d, m) = parts.shape;
    let Ok(shape) = Shape::new(r, d, m) else {
        return Err("no shape".into());
    };
    let mut moduli = Vec::new(alloc);
    for number in parts.moduli {
        moduli.push(Modulus::new(*number)?)?;
    }
    let mut integrals = Vec::new(alloc);
    for coefficient in parts.coefficients {
        integrals.push(integral_of(alloc, *coefficient, parts.class)?)?;
    }
    let problem = Problem::new(
        shape,
        Setup::new(parts.weights)?,
        Moduli::of(moduli),
        parts.bounds.0,
        parts.bounds.1,
        Integrals::of(integrals),
    );
    Ok(problem.ok_or("no problem")?)
}

fn integral_of(alloc: Global, coefficient: i64, class: Option<Power>) -> Result<Terms, Fail> {
    let mut classes = Vec::new(alloc);
    if let Some(power) = class {
        classes.push(power)?;
    }
    let term = Term {
        coefficient,
        classes: Powers::of(classes),
    };
    Ok(Terms::of(vec![in alloc; term]?))
}

/// Whether there is a residue for each integral and modulus, and it is below its modulus.
fn are_reduced(problem: &Problem, residues: &[u64]) -> bool
    ensures { OnTrue result (AreSumResidues (problem_view problem.now) residues.now) }
{
    let count = problem.moduli.len();
    if count == 0 || residues.len() / count < problem.integrals.len() {
        return false;
    }
    for place in 0..residues.len() {
        if residues[place] >= problem.moduli.get(place % count).get() {
            return false;
        }
    }
    true
}

fn report_of(alloc: Global, parts: &Parts, residues: &[u64]) -> Result<Report, Fail> {
    let problem = problem_of(alloc, parts)?;
    if !are_reduced(&problem, residues) {
        return Err("not reduced".into());
    }
    Ok(done(alloc, &problem, residues)?)
}

#[test]
fn sums_of_two_integrals(rt: HostRuntime) -> Result<(), Fail> {
    let alloc = rt.alloc();
    // 1/8 is past the bound on the denominator, and -3 is not.
    let parts = Parts {
        bounds: (100, 7),
        coefficients: &[1, -24],
        ..COVERS
    };
    let report = report_of(alloc, &parts, &[38, 876, 98, 998])?;
    assert_eq!(rt; report.status, Status::NoFraction);
    assert_eq!(rt;
        str::from_utf8(report.text.as_slice()),
        Ok(
            "trees 8\n\
        integral 0\nresidue 101 38\nresidue 1001 876\nfraction none\n\
        integral 1\nresidue 101 98\nresidue 1001 998\nfraction -3/1\n"
        )
    );
    Ok(())
}
