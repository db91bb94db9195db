//! Lists that are known, made by several workers.

ghost use Rattle.std.specs.Prelude.{◌<◌, ◌≤◌};

use super::*;
use decorated_tree::Shape;
use problem::Problem;
use residue::{Class, Integrals, Moduli, Modulus, Power, Powers, Setup, Term, Terms};
use std::alloc::Global;
use std::test::Fail;
use std::thread::Threads;
use worker_pool::Gate;

/// Lets every worker pass.
#[derive(Drop)]
struct Open;

impl Gate for Open {
    fn pass(&self, _worker: u32, _turn: u64) {}
}

/// The covers of degree 2 of a line, by the square of the class of the first direct image of O(-1), and that integral twice
/// if wanted.
fn covers(alloc: Global, moduli: &[u64], times: u32) -> Result<Problem, Fail> {
    let Ok(shape) = Shape::new(1, 2, 0) else {
        return Err("no shape".into());
    };
    let mut numbers = Vec::new(alloc);
    for modulus in moduli {
        numbers.push(Modulus::new(*modulus)?)?;
    }
    let mut integrals = Vec::new(alloc);
    for _ in 0..times {
        let image = Power {
            class: Class::R1 { k: 1 },
            power: 2,
        };
        let term = Term {
            coefficient: 1,
            classes: Powers::of(vec![in alloc; image]?),
        };
        integrals.push(Terms::of(vec![in alloc; term]?))?;
    }
    let problem = Problem::new(
        shape,
        Setup::new(&[1, 3])?,
        Moduli::of(numbers),
        2,
        2,
        Integrals::of(integrals),
    );
    Ok(problem.ok_or("no problem")?)
}

/// The text of the numbers from `first` to `end - 1`, if they can be listed.
fn text<R: Threads + Sync>(
    rt: &R,
    alloc: Global,
    problem: &Problem,
    first: u64,
    end: u64,
    workers: u32,
) -> Result<String, Fail>
    requires { (0 < workers) × (workers ≤ 64) }
{
    if !is_listable(problem, first, end) {
        return Err("no such range".into());
    }
    let listing = list_trees(rt, alloc, problem, first, end, workers, &Open)?;
    Ok(String::from_utf8(listing.text).ok().ok_or("no text")?)
}

#[test]
fn two_trees_of_the_double_covers(rt: HostRuntime) -> Result<(), Fail> {
    let alloc = rt.alloc();
    let problem = covers(alloc, &[101, 1001], 1)?;
    let wanted = concat!(
        "tree 1\nedges 0-1:2 colours 1 0 marks -\nresidue 101 25\nresidue 1001 250\n",
        "tree 2\nedges 0-1:1 0-2:1 colours 0 1 1 marks -\nresidue 101 40\nresidue 1001 146\n",
    );
    for workers in [1, 3] {
        let listed = text(&rt, alloc, &problem, 1, 3, workers)?;
        assert_eq!(rt; listed.as_str(), wanted);
    }
    Ok(())
}

#[test]
fn a_tree_without_a_residue(rt: HostRuntime) -> Result<(), Fail> {
    let alloc = rt.alloc();
    // 3 divides 3!, so the trees of three vertices, from the number 2 on, have no residue modulo 9.
    let problem = covers(alloc, &[9], 2)?;
    let listed = text(&rt, alloc, &problem, 1, 3, 2)?;
    let wanted = concat!(
        "tree 1\nedges 0-1:2 colours 1 0 marks -\nintegral 0\nresidue 9 2\nintegral 1\nresidue 9 2\n",
        "tree 2\nedges 0-1:1 0-2:1 colours 0 1 1 marks -\nintegral 0\nresidue 9 none\nintegral 1\nresidue 9 none\n",
    );
    assert_eq!(rt; listed.as_str(), wanted);
    Ok(())
}
