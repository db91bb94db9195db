//! Sums on the workers that are asked for, and what is printed of them.

ghost use Rattle.std.specs.Prelude.{◌≡◌, ◌≢◌, ◌<◌, ◌^◌, ◌++◌, codes, decimal, IfOk, OnErr};
ghost use Rattle.command_line.specs.Limits.{IsSumWithin, AreWorkers};
ghost use Rattle.command_line.specs.Requests.{sum_of_request, run};
ghost use Rattle.problem_toml.specs.Generator.{generated_problem};
ghost use Rattle.problem.specs.Problems.{view as problem_view};
ghost use Rattle.report.specs.Statuses.{code_of};
ghost use Rattle.rounds.specs.Outcomes.{IsOfProblem};
ghost use Rattle.locus_core.specs.Outside.{Unchanged, stopper_change};
ghost use Rattle.locus_core.specs.Begins.{of_state, of_number, plan_of, SumPlan};
ghost use Rattle.locus_core.specs.Comes.{IsAnswer, MayHaveStopped};
ghost use Rattle.locus_core.specs.Steps.{Continues, IsNoPause, IsReportOf};

use crate::work::Printable;
use checkpoint::State;
use command_line::RunRequest;
use locus_io::Stopper;
use problem::Problem;
use problem_toml::generated;
use report::{Report, Status, done, no_inverse};
use residue::NoMemory;
use rounds::{Outcome, Progress, advance, advance_problem};
use std::alloc::Global;
use std::thread::Threads;
use worker_pool::Gate;

/// As many trees as a problem may have.
const MOST_TREES: u64 = 1_099_511_627_776;

/// Sums from a state on, as a request says.
pub(crate) fn go_on<R: Threads + Sync, S: Stopper, G: Gate>(
    rt: &R,
    alloc: Global,
    state: State,
    request: RunRequest<'_>,
    stopper: &mut S,
    gate: &G,
) -> Result<Printable, NoMemory>
    requires within { IsSumWithin (sum_of_request request) }
    ensures done { IfOk result (λ printed. Continues (of_state state (plan_of (sum_of_request request.entry)))
        (stopper_change S.stops S.last_stop stopper.old stopper.new) printed.shares (code_of printed.status) printed.text.items) }
    ensures no_memory { OnErr result
        (MayHaveStopped (run (sum_of_request request.entry))
        (stopper_change S.stops S.last_stop stopper.old stopper.new)) }
{
    let progress = advance(
        rt,
        alloc,
        &state,
        request.budget,
        request.workers as u32,
        request.stop_file,
        gate,
        stopper,
    )?;
    let Progress { outcome, shares } = progress;
    let Report { status, text } = report_of(alloc, state, outcome)?;
    Ok(Printable {
        status,
        text,
        shares,
    })
}

/// What is printed of an outcome: sums with their fractions, the least bad tree, or a checkpoint.
fn report_of(alloc: Global, state: State, outcome: Outcome) -> Result<Report, NoMemory>
    requires { IsOfProblem state.problem outcome }
    ensures { IfOk result (λ report. (plan : SumPlan) → IsAnswer (of_state state plan) outcome (code_of report.status) report.text.items) }
{
    match outcome {
        Outcome::Done { residues } => done(alloc, state.problem(), residues.as_slice()),
        Outcome::NoInverse { number, modulus } => {
            no_inverse(alloc, state.problem(), number, modulus as usize)
        }
        Outcome::Paused { next, residues } => {
            let state = state.with_progress(next, residues);
            Ok(Report {
                status: Status::Paused,
                text: checkpoint::write(alloc, &state)?,
            })
        }
    }
}

/// Sums the generated problem of a number.
pub(crate) fn soak<R: Threads + Sync, S: Stopper, G: Gate>(
    rt: &R,
    alloc: Global,
    number: u32,
    workers: u32,
    stopper: &mut S,
    gate: &G,
) -> Result<Printable, NoMemory>
    requires workers { AreWorkers workers }
    ensures done { IfOk result (λ printed. Continues (of_number number workers)
        (stopper_change S.stops S.last_stop stopper.old stopper.new) printed.shares (code_of printed.status) printed.text.items) }
    ensures no_memory { OnErr result (Unchanged (stopper_change S.stops S.last_stop stopper.old stopper.new)) }
{
    let problem = generated(alloc, number)?;
    let progress = advance_problem(
        rt,
        alloc,
        &problem,
        0,
        &[0, 0],
        MOST_TREES,
        workers,
        None,
        gate,
        stopper,
    )?;
    let Progress { outcome, shares } = progress;
    let report = soak_report(alloc, &problem, outcome)?;
    Ok(Printable {
        status: report.status,
        text: with_heading(alloc, number, report.text.as_slice())?,
        shares,
    })
}

/// What is printed of an outcome that is no pause.
fn soak_report(alloc: Global, problem: &Problem, outcome: Outcome) -> Result<Report, NoMemory>
    requires of_problem { IsOfProblem (problem_view problem.now) outcome }
    requires no_pause { IsNoPause outcome }
    ensures { IfOk result (λ report. IsReportOf (problem_view problem.now) outcome (code_of report.status) report.text.items) }
{
    match outcome {
        Outcome::Done { residues } => done(alloc, problem, residues.as_slice()),
        Outcome::NoInverse { number, modulus } => {
            no_inverse(alloc, problem, number, modulus as usize)
        }
        Outcome::Paused { .. } => unreachable!(),
    }
}

/// The text of a sum behind the line that names its number.
fn with_heading(alloc: Global, number: u32, text: &[u8]) -> Result<Vec<u8>, NoMemory>
    ensures { IfOk result (λ whole. whole.items ≡ (codes "soak " ++ decimal number ++ codes "\n") ++ text.now) }
{
    let heading = format!(in alloc; "soak {number}\n")?;
    let mut whole = Vec::from_slice(alloc, heading.as_bytes())?;
    whole.extend_from_slice(text)?;
    Ok(whole)
}
