//! The loop of a worker of a batch.

ghost use Rattle.std.specs.Prelude.{◌≡◌, ◌<◌, [], ◌∷◌, IfSome, IfNone};
ghost use Rattle.job_batch.specs.Batch.{Answered};
ghost use Rattle.job_batch.specs.Workers.{seat_hand, SameSeat, AreJobs, IsAtWork, IsAnswered};

use crate::job::run_job;
use crate::worker::{BatchWorker, Seat};
use checkpoint::State;
use factor_table::FactorTable;
use worker_pool::Gate;

/// The next place, or `None` if the seat gives none.
fn next_place(seat: &mut Seat) -> Option<u32>
    requires { 0 < (seat_hand seat.old).seats }
    ensures some { IfSome result (λ place. Answered (seat_hand seat.old) (place ∷ []) (seat_hand seat.new)) }
    ensures none { IfNone result (seat_hand seat.new ≡ seat_hand seat.old) }
    ensures same { SameSeat seat.old seat.new }
{
    match seat {
        Seat::Owner(owner) => owner.pop(),
        Seat::Thief(thief) => thief.steal(),
    }
}

/// Runs jobs until the seat gives none, and notes each with its end. It takes no memory.
pub(crate) fn work<G: Gate>(
    worker: &mut BatchWorker,
    states: &[State],
    tables: &[FactorTable],
    gate: &G,
)
    requires jobs { AreJobs states.now tables.now }
    requires at_work { IsAtWork states.now tables.now worker.old }
    ensures at_work { IsAtWork states.now tables.now worker.new }
    ensures number { worker.new.number ≡ worker.old.number }
    ensures same { SameSeat worker.old.seat worker.new.seat }
{
    let number = worker.number;
    let mut turn = 0;
    loop {
        gate.pass(number, turn);
        let Some(place) = next_place(&mut worker.seat) else {
            break;
        };
        run_next(worker, states, tables, place);
        turn += 1;
    }
}

/// Runs the job of a place that was answered, and notes it.
fn run_next(worker: &mut BatchWorker, states: &[State], tables: &[FactorTable], place: u32)
    requires jobs { AreJobs states.now tables.now }
    requires answered { IsAnswered states.now tables.now worker.old place }
    ensures at_work { IsAtWork states.now tables.now worker.new }
    ensures seat { worker.new.seat ≡ worker.old.seat }
    ensures number { worker.new.number ≡ worker.old.number }
{
    let index = place as usize;
    let job = run_job(
        &states[index],
        &tables[index],
        &mut worker.parts[index],
        place,
    );
    worker.ended.push_reserved(job);
}
