//! Sums on many workers, whose values are known.

ghost use Rattle.std.specs.Prelude.{◌<◌, ◌≤◌, ◌^◌, IfOk, IfSome};
ghost use Rattle.problem.specs.Rules.{ProblemView};
ghost use Rattle.problem.specs.Sums.{count_of};
ghost use Rattle.checkpoint.specs.States.{AreResidues};
ghost use Rattle.rounds.specs.Outcomes.{IsOfProblem};

use crate::{Outcome, Progress, advance, advance_problem};
use checkpoint::{State, fresh};
use locus_io::{OpenGate, ScriptedStopper};
use std::alloc::Global;
use std::test::Fail;
use std::thread::Threads;

// The covers of degree 2 of a line, of which there are 8 trees. Their sum is 1/8, with the residues 38 and 876.
const COVERS: &str = "version = 1\nrank = 1\ndegree = 2\nweights = [1, 3]\nmoduli = [101, 1001]\n\
    numerator_bound = 100\ndenominator_bound = 100\n\n[[term]]\nclasses = [{ kind = \"r1\", k = 1, power = 2 }]\n";

// The same with a modulus for which the trees of three vertices are bad, since 3 divides 3!.
const COVERS_MODULO_9: &str = "version = 1\nrank = 1\ndegree = 2\nweights = [1, 3]\nmoduli = [9]\n\
    numerator_bound = 2\ndenominator_bound = 2\n\n[[term]]\nclasses = [{ kind = \"r1\", k = 1, power = 2 }]\n";

// Rational curves on the quintic threefold: 5,620 trees in degree 3 and 176,100 in degree 4.
const QUINTIC: &str =
    "marks = 0\nweights = [1, 10, 100, 1000, 10000]\nmoduli = [1_000_000_007, 1_000_000_009]\n\
    numerator_bound = 20_000_000_000_000\ndenominator_bound = 1000\n\n\
    [[term]]\nclasses = [{ kind = \"hypersurface\", b = 5 }]\n";

// Twisted cubics on the quintic, modulo 13.
const CUBICS_MODULO_13: &str =
    "version = 1\nrank = 4\ndegree = 3\nmarks = 0\nweights = [1, 10, 100, 1000, 10000]\n\
    moduli = [13]\nnumerator_bound = 2\ndenominator_bound = 2\n\n\
    [[term]]\nclasses = [{ kind = \"hypersurface\", b = 5 }]\n";

// The sums of the rational curves of degrees 3 and 4 (Candelas, de la Ossa, Green and Parkes 1991), multiple covers
// included: 8564575000/27 and 15517926796875/64.
const TWISTED_CUBICS: &str = "done 132021295 169058332";

const QUARTICS: &str = "done 14479504 670729025";

fn state(alloc: Global, text: &str) -> Result<State, Fail> {
    fresh(alloc, text.as_bytes()).map_err(|_| "refused".into())
}

fn quintic(alloc: Global, degree: u8) -> Result<String, Fail> {
    Ok(format!(in alloc; "version = 1\nrank = 4\ndegree = {degree}\n{QUINTIC}")?)
}

// How a call ended, in words.
fn told(alloc: Global, outcome: &Outcome) -> Result<String, Fail> {
    let (mut text, residues) = match outcome {
        Outcome::Done { residues } => (format!(in alloc; "done")?, residues),
        Outcome::Paused { next, residues } => (format!(in alloc; "paused {next}")?, residues),
        Outcome::NoInverse { number, modulus } => {
            return Ok(format!(in alloc; "no inverse {number} {modulus}")?);
        }
    };
    for residue in residues.as_slice() {
        text.push_str(format!(in alloc; " {residue}")?.as_str())?;
    }
    Ok(text)
}

// One share for each worker, and their sum.
fn shares_of(progress: &Progress) -> (usize, u64) {
    let mut sum = 0u64;
    for worker in 0..progress.shares.len() {
        sum = sum.wrapping_add(progress.shares.get(worker));
    }
    (progress.shares.len(), sum)
}

// A call without a name for stops.
fn go_on<R: Threads + Sync>(
    rt: &R,
    alloc: Global,
    state: &State,
    budget: u64,
    workers: u32,
) -> Result<Progress, Fail>
    requires budget { (0 < budget) × (budget ≤ 2 ^ 40) }
    requires workers { (0 < workers) × (workers ≤ 64) }
    ensures { IfOk result (λ progress. IsOfProblem state.now.problem progress.outcome) }
{
    let mut stopper = ScriptedStopper::new(Vec::new(alloc));
    advance(
        rt,
        alloc,
        state,
        budget,
        workers,
        None,
        &OpenGate,
        &mut stopper,
    )
    .map_err(|_| "no memory".into())
}

#[test]
fn eight_covers_at_once(rt: HostRuntime) -> Result<(), Fail> {
    let alloc = rt.alloc();
    let state = state(alloc, COVERS)?;
    for workers in [1, 2, 7, 64] {
        let progress = go_on(&rt, alloc, &state, 8, workers)?;
        assert_eq!(rt; told(alloc, &progress.outcome)?.as_str(), "done 38 876");
        assert_eq!(rt; shares_of(&progress), (workers as usize, 1));
    }
    Ok(())
}

#[test]
fn three_covers_of_eight(rt: HostRuntime) -> Result<(), Fail> {
    let alloc = rt.alloc();
    let state = state(alloc, COVERS)?;
    let progress = go_on(&rt, alloc, &state, 3, 2)?;
    assert_eq!(rt; told(alloc, &progress.outcome)?.as_str(), "paused 3 90 646");
    Ok(())
}

#[test]
fn the_least_bad_tree_is_named(rt: HostRuntime) -> Result<(), Fail> {
    let alloc = rt.alloc();
    let state = state(alloc, COVERS_MODULO_9)?;
    for workers in [1, 64] {
        let progress = go_on(&rt, alloc, &state, 100, workers)?;
        assert_eq!(rt; told(alloc, &progress.outcome)?.as_str(), "no inverse 2 0");
    }
    Ok(())
}

#[test]
fn twisted_cubics_on_the_quintic(rt: HostRuntime) -> Result<(), Fail> {
    let alloc = rt.alloc();
    let state = state(alloc, quintic(alloc, 3)?.as_str())?;
    for workers in [1, 2, 7, 64] {
        let progress = go_on(&rt, alloc, &state, 1 << 40, workers)?;
        assert_eq!(rt; told(alloc, &progress.outcome)?.as_str(), TWISTED_CUBICS);
        assert_eq!(rt; shares_of(&progress), (workers as usize, 88));
    }
    Ok(())
}

// The same modulo 13, for which the tree of the number 2 is the least that is bad.
#[test]
fn a_bad_tree_among_the_cubics(rt: HostRuntime) -> Result<(), Fail> {
    let alloc = rt.alloc();
    let state = state(alloc, CUBICS_MODULO_13)?;
    for workers in [1, 2, 7] {
        let progress = go_on(&rt, alloc, &state, 1 << 40, workers)?;
        assert_eq!(rt; told(alloc, &progress.outcome)?.as_str(), "no inverse 2 0");
        assert_eq!(rt; shares_of(&progress), (workers as usize, 88));
    }
    Ok(())
}

// The quartics have three rounds, so a stopper is asked after the first and the second.
#[test]
fn a_stopper_is_asked_after_each_round_but_the_last(rt: HostRuntime) -> Result<(), Fail> {
    let alloc = rt.alloc();
    let state = state(alloc, quintic(alloc, 4)?.as_str())?;
    let cases: [(&[bool], Option<&str>, &str, u64); 4] = [
        (&[true], Some("s"), "paused 65536", 1),
        (&[false, true], Some("s"), "paused 131072", 2),
        (&[false, false], Some("s"), QUARTICS, 2),
        (&[true], None, QUARTICS, 0),
    ];
    for (answers, name, wanted, asked) in cases {
        let mut stopper = ScriptedStopper::new(Vec::from_slice(alloc, answers)?);
        let progress = advance(
            &rt,
            alloc,
            &state,
            1 << 40,
            3,
            name,
            &OpenGate,
            &mut stopper,
        );
        let progress = progress.ok().ok_or("no memory")?;
        let text = told(alloc, &progress.outcome)?;
        assert!(rt;
            text.as_str().starts_with(wanted),
            "{text} in place of {wanted}"
        );
        assert_eq!(rt; stopper.asked(), asked, "for {wanted}");
    }
    Ok(())
}

// The number of the next tree and the residues of a pause.
fn pause_of(outcome: &Outcome) -> Option<(u64, &[u64])>
    ensures { IfSome result (λ pause. (problem : ProblemView) → IsOfProblem problem outcome.now
        → (pause.0 ≤ count_of problem) × AreResidues problem pause.1.now) }
{
    match outcome {
        Outcome::Paused { next, residues } => Some((*next, residues.as_slice())),
        _ => None,
    }
}

// Goes on until no tree is left, with a budget for each call. It returns how the last call ended, and how many calls
// and blocks there were.
fn chain<R: Threads + Sync>(
    rt: &R,
    alloc: Global,
    text: &str,
    budget: u64,
    workers: u32,
) -> Result<(String, u64, u64), Fail>
    requires budget { (0 < budget) × (budget ≤ 2 ^ 40) }
    requires workers { (0 < workers) × (workers ≤ 64) }
{
    let state = state(alloc, text)?;
    let mut stopper = ScriptedStopper::new(Vec::new(alloc));
    let mut next = 0;
    let mut residues = Vec::from_slice(alloc, state.residues())?;
    let mut blocks = 0u64;
    for calls in 1..1_000_000u64 {
        let progress = advance_problem(
            rt,
            alloc,
            state.problem(),
            next,
            residues.as_slice(),
            budget,
            workers,
            None,
            &OpenGate,
            &mut stopper,
        );
        let progress = progress.ok().ok_or("no memory")?;
        blocks = blocks.wrapping_add(shares_of(&progress).1);
        let Some((later, more)) = pause_of(&progress.outcome) else {
            return Ok((told(alloc, &progress.outcome)?, calls, blocks));
        };
        next = later;
        residues = Vec::from_slice(alloc, more)?;
    }
    Err("no end".into())
}

#[test]
fn eight_covers_one_at_a_time(rt: HostRuntime) -> Result<(), Fail> {
    let alloc = rt.alloc();
    for workers in [1, 2, 7, 64] {
        let (text, calls, blocks) = chain(&rt, alloc, COVERS, 1, workers)?;
        assert_eq!(rt; text.as_str(), "done 38 876", "{workers} workers");
        assert_eq!(rt; (calls, blocks), (8, 8), "{workers} workers");
    }
    Ok(())
}

// 5,620 trees are 89 times 63 and 13 more, 87 times 64 and 52 more, and 86 times 65 and 30 more. A budget of 65 has a
// block of 64 trees and one of a single tree.
#[test]
fn twisted_cubics_in_short_calls(rt: HostRuntime) -> Result<(), Fail> {
    let alloc = rt.alloc();
    let text = quintic(alloc, 3)?;
    for (budget, calls, blocks) in [(63, 90, 90), (64, 88, 88), (65, 87, 173)] {
        for workers in [1, 2, 7, 64] {
            let ended = chain(&rt, alloc, text.as_str(), budget, workers)?;
            assert_eq!(rt;
                ended.0.as_str(),
                TWISTED_CUBICS,
                "budget {budget}, {workers} workers"
            );
            assert_eq!(rt;
                (ended.1, ended.2),
                (calls, blocks),
                "budget {budget}, {workers} workers"
            );
        }
    }
    Ok(())
}

// 176,100 trees: a budget of 65,535 or 65,536 has three calls of 1,024 blocks at most, and one of 65,537 has three
// calls too, the first two of which have a second round of a single tree.
#[test]
fn quartics_in_calls_of_about_a_round(rt: HostRuntime) -> Result<(), Fail> {
    let alloc = rt.alloc();
    let text = quintic(alloc, 4)?;
    for (budget, workers, blocks) in [(65_535, 1, 2752), (65_536, 2, 2752), (65_537, 7, 2754)] {
        let ended = chain(&rt, alloc, text.as_str(), budget, workers)?;
        assert_eq!(rt; ended.0.as_str(), QUARTICS, "budget {budget}");
        assert_eq!(rt; (ended.1, ended.2), (3, blocks), "budget {budget}");
    }
    Ok(())
}
