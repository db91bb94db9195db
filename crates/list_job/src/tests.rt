//! Contributions that are known, listed on several workers.

ghost use Rattle.std.specs.Prelude.{◌<◌, ◌≤◌};

use super::*;
use decorated_tree::Shape;
use problem::Problem;
use residue::{Class, Integrals, Moduli, Modulus, Power, Powers, Setup, Term, Terms};
use std::alloc::Global;
use std::test::Fail;
use std::thread::Threads;
use table_sum::{TableSum, problem_table};
use worker_pool::{Gate, Shares};

/// Lets every worker pass.
#[derive(Drop)]
struct Open;

impl Gate for Open {
    fn pass(&self, _worker: u32, _turn: u64) {}
}

/// The covers of degree 2 of a line, by the square of the class of the first direct image of O(-1).
fn covers(alloc: Global, moduli: &[u64]) -> Result<Problem, Fail> {
    let Ok(shape) = Shape::new(1, 2, 0) else {
        return Err("no shape".into());
    };
    let mut numbers = Vec::new(alloc);
    for modulus in moduli {
        numbers.push(Modulus::new(*modulus)?)?;
    }
    let image = Power {
        class: Class::R1 { k: 1 },
        power: 2,
    };
    let term = Term {
        coefficient: 1,
        classes: Powers::of(vec![in alloc; image]?),
    };
    let integrals = vec![in alloc; Terms::of(vec![in alloc; term]?)]?;
    let problem = Problem::new(
        shape,
        Setup::new(&[1, 3])?,
        Moduli::of(numbers),
        2,
        2,
        Integrals::of(integrals),
    );
    Ok(problem.ok_or("no problem")?)
}

/// The entries of the numbers from `first` to `end - 1`.
fn listed<R: Threads + Sync>(
    rt: &R,
    alloc: Global,
    problem: &Problem,
    first: u64,
    end: u64,
    workers: u32,
) -> Result<Vec<Entry>, Fail>
    requires { (0 < workers) × (workers ≤ 64) }
{
    if first >= end || end > problem.shape.count() || end - first > 4096 {
        return Err("no such range".into());
    }
    let (table, seats) = problem_table(alloc, problem, workers)?;
    let mut parts = empty_parts(alloc, (end - first) as u32, seats)?;
    let mut shares = Shares::new(workers);
    let sum = TableSum::of(problem, &table);
    let job = ListJob::new(&sum, first, end);
    list_numbers(rt, alloc, &job, &Open, parts.as_mut_slice(), &mut shares)?;
    let mut entries = Vec::new(alloc);
    for number in first..end {
        entries.push(*entry_of(&job, parts.as_slice(), number))?;
    }
    Ok(entries)
}

#[test]
fn contributions_of_double_covers(rt: HostRuntime) -> Result<(), Fail> {
    let alloc = rt.alloc();
    let problem = covers(alloc, &[101, 1001])?;
    for workers in [1, 3] {
        let entries = listed(&rt, alloc, &problem, 1, 3, workers)?;
        let known = [(1, [25, 250, NO_RESIDUE]), (2, [40, 146, NO_RESIDUE])];
        assert_eq!(rt; entries.len(), 2);
        for (entry, (number, values)) in entries.iter().zip(known) {
            assert_eq!(rt; entry.number, number);
            assert_eq!(rt; &entry.values[..3], values.as_slice());
        }
    }
    Ok(())
}

#[test]
fn a_tree_without_a_residue(rt: HostRuntime) -> Result<(), Fail> {
    let alloc = rt.alloc();
    // 3 divides 3!, so the trees of three vertices, from the number 2 on, have no residue modulo 9.
    let problem = covers(alloc, &[9])?;
    let entries = listed(&rt, alloc, &problem, 0, 8, 2)?;
    assert_eq!(rt; entries.len(), 8);
    for entry in entries.as_slice() {
        let has_residue = entry.values[0] != NO_RESIDUE;
        assert_eq!(rt; has_residue, entry.number < 2, "at {}", entry.number);
    }
    Ok(())
}
