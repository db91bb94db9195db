//! Problems that are the same but for their weights, whose sums are known.

ghost use Rattle.std.specs.Prelude.{◌≡◌, ◌≤◌, ◌<◌, ◌↔◌, All, length};
ghost use Rattle.problem.specs.Problems.{view as problem_view};
ghost use Rattle.factor_table.specs.Seats.{IsSeatOf};
ghost use Rattle.table_sum.specs.Problems.{IsTableOf};
ghost use Rattle.cross_job.specs.Cross.{HasColumn};
ghost use Rattle.cross_job.specs.CrossParts.{parts_of};

use super::*;
use factor_table::{FactorSeat, FactorTable};
use problem::Problem;
use problem_toml::{Name, read};
use residue::Residues;
use std::alloc::Global;
use std::test::Fail;
use std::thread::Threads;
use table_sum::{TableSum, problem_table};
use worker_pool::{Gate, Shares};

// Lets every worker pass.
#[derive(Drop)]
struct Open;

impl Gate for Open {
    fn pass(&self, _worker: u32, _turn: u64) {}
}

const HEAD: &str =
    "version = 1\nrank = 3\ndegree = 1\nmoduli = [1_000_000_007]\ndenominator_bound = 1000\n";

const TAIL: &str = "[[term]]\nclasses = [{ kind = \"hypersurface\", b = 3 }]\n";

// The lines on a cubic surface, of which there are 27 (Cayley 1849). Lines in space have 12 trees.
fn lines(alloc: Global, weights: &str, bound: u64) -> Result<Problem, Fail> {
    let text = format!(in alloc; "{HEAD}weights = [{weights}]\nnumerator_bound = {bound}\n{TAIL}")?;
    read(alloc, text.as_bytes()).map_err(|_| "refused".into())
}

// The first residue of the problem at an index, from the parts of a round.
fn total(problem: &Problem, index: usize, parts: &[CrossPart]) -> u64
    requires { All (λ part. HasColumn (problem_view problem.now) index (parts_of part)) parts.now }
{
    let mut totals = [0; 64];
    add_column(problem, index, &mut totals, parts);
    totals[0]
}

// The first residues of two problems with equally many trees, or the least number that is bad for one of them.
fn cross<R: Threads + Sync>(
    rt: &R,
    alloc: Global,
    one: &Problem,
    other: &Problem,
) -> Result<Result<(u64, u64), BadNumber>, Fail> {
    let (table, mut seats) = problem_table(alloc, one, 1)?;
    let (other_table, mut others) = problem_table(alloc, other, 1)?;
    let (Some(seat), Some(other_seat)) = (seats.pop(), others.pop()) else {
        return Err("no seat".into());
    };
    cross_over(
        rt,
        alloc,
        one,
        &table,
        seat,
        other,
        &other_table,
        other_seat,
    )
}

// The same with a table of each problem, and a seat of each table.
fn cross_over<'a, R: Threads + Sync>(
    rt: &R,
    alloc: Global,
    one: &'a Problem,
    table: &'a FactorTable,
    seat: FactorSeat,
    other: &'a Problem,
    other_table: &'a FactorTable,
    other_seat: FactorSeat,
) -> Result<Result<(u64, u64), BadNumber>, Fail>
    requires table { IsTableOf (problem_view one.now) table.now }
    requires seat { IsSeatOf seat table.now }
    requires other_table { IsTableOf (problem_view other.now) other_table.now }
    requires other_seat { IsSeatOf other_seat other_table.now }
{
    let end = one.shape.count();
    if end == 0 || end > 65536 || end != other.shape.count() {
        return Err("other trees".into());
    }
    let sums = [TableSum::of(one, table), TableSum::of(other, other_table)];
    let part = CrossPart::new(alloc, vec![in alloc; seat, other_seat]?)?;
    let mut parts = [part];
    let mut shares = Shares::new(1);
    match sum_round(rt, alloc, &sums, 0, end, &Open, &mut parts, &mut shares)? {
        Some(bad) => Ok(Err(bad)),
        None => Ok(Ok((total(one, 0, &parts), total(other, 1, &parts)))),
    }
}

#[test]
fn the_lines_on_a_cubic_surface_under_other_weights(rt: HostRuntime) -> Result<(), Fail> {
    let alloc = rt.alloc();
    let one = lines(alloc, "1, 10, 100, 1000", 1000)?;
    let other = lines(alloc, "2, 3, 5, 8", 1000)?;
    assert!(rt; same_but_weights(&one, &other).is_ok());
    assert_eq!(rt; cross(&rt, alloc, &one, &other)?, Ok((27, 27)));
    Ok(())
}

#[test]
fn a_number_that_is_bad_for_the_second_problem(rt: HostRuntime) -> Result<(), Fail> {
    let alloc = rt.alloc();
    let one = lines(alloc, "1, 10, 100, 1000", 1000)?;
    let other = lines(alloc, "1, 1, 100, 1000", 1000)?;
    let first = BadProblem {
        problem: 1,
        modulus: 0,
    };
    let bad = BadNumber { number: 0, first };
    assert_eq!(rt; cross(&rt, alloc, &one, &other)?, Err(bad));
    Ok(())
}

#[test]
fn the_first_part_in_which_problems_differ(rt: HostRuntime) -> Result<(), Fail> {
    let alloc = rt.alloc();
    let one = lines(alloc, "1, 10, 100, 1000", 1000)?;
    let other = lines(alloc, "1, 10, 100, 1000", 999)?;
    let name = Name::NumeratorBound;
    assert_eq!(rt; same_but_weights(&one, &other), Err(Differ { name }));
    Ok(())
}

#[test]
fn the_least_place_at_which_residues_differ(rt: HostRuntime) -> Result<(), Fail> {
    let alloc = rt.alloc();
    let one = Residues::of(vec![in alloc; 38, 876]?);
    let same = Residues::of(vec![in alloc; 38, 876]?);
    let other = Residues::of(vec![in alloc; 38, 875]?);
    assert_eq!(rt; first_difference(&one, &other), Some(1u32));
    assert_eq!(rt; first_difference(&one, &same), None);
    let found = first_disagreement(&[one, same, other]);
    assert_eq!(rt; found, Some(Disagreement { list: 2, index: 1 }));
    Ok(())
}

#[test]
fn a_problem_with_its_table(rt: HostRuntime) -> Result<(), Fail> {
    let alloc = rt.alloc();
    let problem = lines(alloc, "1, 10, 100, 1000", 1000)?;
    let (table, _) = problem_table(alloc, &problem, 1)?;
    let (problems, tables) = ([problem], [table]);
    let sums = table_sums(alloc, &problems, &tables)?;
    assert_eq!(rt; sums.len(), 1);
    Ok(())
}
