// A round of a job: the loop of one worker, the loops of all beside each other by fork and join, and the whole.
ghost use Rattle.std.specs.Prelude.{◌≡◌, ℕ, ◌+◌, ◌<◌, ◌≤◌, ◌^◌, ◌-◌, Option, length, sum, All, IfSome, IfOk, OnOk, OnErr};
ghost use Rattle.claim_table.specs.Claims.{plan};
ghost use Rattle.worker_pool.specs.Loops.{AreReady, HaveRun, MayCross};
ghost use Rattle.worker_pool.specs.Rounds.{IsLoop, AreLoops, IsRound, IsCleanRound, IsLeastOfRound, with_answer};
ghost use Rattle.worker_pool.specs.Shares.{GrewBy};

use crate::gate::Gate;
use crate::job::Job;
use crate::shares::Shares;
use claim_table::{Claimer, Closed, Owners};
use lists::NoMemory;
use range_deque::RangeSeat;
use std::alloc::Global;
use std::thread::{Threads, join_mut};

/// What a round came to.
#[derive(Debug, Drop)]
pub struct Round {
    /// For each block the worker that worked it.
    pub owners: Owners,
    /// The least bad number of all blocks of the job, or 2^64 - 1 if they have none.
    pub least_bad: u64,
}

/// The loop of one worker: it takes blocks and works them until there is none left for its seat,
/// which is dry then.
///
/// Before each block it looks at the least bad number that anyone reported, and it reports what
/// `work` answers. It takes no memory.
pub fn work_loop<J: Job, G: Gate, C: Claimer>(
    job: &J,
    part: &mut J::Part,
    seat: &mut C,
    board: &C::Board,
    gate: &G,
)
    requires seat { C.sits_at seat.old board.now × C.is_free seat.old }
    requires blocks { (C.plan_of board.now).blocks ≡ J.blocks job.now }
    requires part { J.is_ready job.now part.old }
    ensures seat { C.sits_at seat.new board.now × C.is_free seat.new }
    ensures ready { J.is_ready job.now part.new }
    ensures worked { IsLoop (J.least_bad job.now) (J.stands_for job.now) (C.record_of seat.old) part.old
        (C.record_of seat.new) part.new }
{
    let worker = seat.worker();
    let mut turn = 0;
    loop {
        gate.pass(worker, turn);
        let Some(block) = seat.take(board) else {
            break;
        };
        let seen = seat.least_bad(board);
        let bad = job.work(part, block, seen);
        report(seat, board, bad);
        turn += 1;
    }
}

// Reports a bad number, if there is one.
fn report<C: Claimer>(seat: &mut C, board: &C::Board, bad: Option<u64>)
    requires seat { C.sits_at seat.old board.now × C.is_free seat.old }
    requires bad { IfSome bad (λ number. number < 2 ^ 64 - 1) }
    ensures seat { C.sits_at seat.new board.now × C.is_free seat.new }
    ensures reported { C.record_of seat.new ≡ with_answer (C.record_of seat.old) bad }
{
    if let Some(number) = bad {
        seat.report_bad(board, number);
    }
}

// The loops of some workers, each in a thread of its own if one can be made.
#[cycle(halves)]
fn run_all<'a, R: Threads + Sync, J: Job, G: Gate, C: Claimer + Send>(
    rt: &'a R,
    job: &'a J,
    gate: &'a G,
    board: &'a C::Board,
    seats: &mut [C],
    parts: &mut [J::Part],
)
    requires board { (C.plan_of board.now).blocks ≡ J.blocks job.now }
    requires ready { AreReady C.is_free C.sits_at board.now (J.is_ready job.now) seats.old parts.old }
    ensures seats { All (λ s. C.sits_at s board.now × C.is_free s) seats.new }
    ensures parts { All (λ p. J.is_ready job.now p) parts.new }
    ensures loops { AreLoops (J.least_bad job.now)
        (J.stands_for job.now) C.record_of seats.old parts.old seats.new parts.new }
{
    if seats.len() == 1 {
        work_loop(job, &mut parts[0], &mut seats[0], board, gate);
        return;
    }
    let half = seats.len() / 2;
    let (low_seats, high_seats) = seats.split_at_mut(half);
    let (low_parts, high_parts) = parts.split_at_mut(half);
    run_both(
        rt, job, gate, board, low_seats, low_parts, high_seats, high_parts,
    );
}

// The loops of two groups of workers, beside each other.
#[cycle(halves)]
fn run_both<'a, R: Threads + Sync, J: Job, G: Gate, C: Claimer + Send>(
    rt: &'a R,
    job: &'a J,
    gate: &'a G,
    board: &'a C::Board,
    low_seats: &mut [C],
    low_parts: &mut [J::Part],
    high_seats: &mut [C],
    high_parts: &mut [J::Part],
)
    requires board { (C.plan_of board.now).blocks ≡ J.blocks job.now }
    requires low { AreReady C.is_free C.sits_at board.now (J.is_ready job.now) low_seats.old low_parts.old }
    requires high { AreReady C.is_free C.sits_at board.now (J.is_ready job.now) high_seats.old high_parts.old }
    ensures low { HaveRun C.is_free C.sits_at board.now (J.is_ready job.now) (J.least_bad job.now)
        (J.stands_for job.now) C.record_of low_seats.old low_parts.old low_seats.new low_parts.new }
    ensures high { HaveRun C.is_free C.sits_at board.now (J.is_ready job.now) (J.least_bad job.now)
        (J.stands_for job.now) C.record_of high_seats.old high_parts.old high_seats.new high_parts.new }
{
    let mut front = ||
        requires { MayCross R.row J.row G.row C.Board.row C.row J.Part.row
            × ((C.plan_of board.now).blocks ≡ J.blocks job.now)
            × AreReady C.is_free C.sits_at board.now (J.is_ready job.now) low_seats.now low_parts.now }
        ensures { HaveRun C.is_free C.sits_at board.entry.now (J.is_ready job.entry.now)
            (J.least_bad job.entry.now) (J.stands_for job.entry.now) C.record_of low_seats.entry.now
            low_parts.entry.now low_seats.exit.now low_parts.exit.now }
    { run_all(rt, job, gate, board, low_seats, low_parts) };
    let mut back = ||
        requires { MayCross R.row J.row G.row C.Board.row C.row J.Part.row
            × ((C.plan_of board.now).blocks ≡ J.blocks job.now)
            × AreReady C.is_free C.sits_at board.now (J.is_ready job.now) high_seats.now high_parts.now }
        ensures { HaveRun C.is_free C.sits_at board.entry.now (J.is_ready job.entry.now)
            (J.least_bad job.entry.now) (J.stands_for job.entry.now) C.record_of high_seats.entry.now
            high_parts.entry.now high_seats.exit.now high_parts.exit.now }
    { run_all(rt, job, gate, board, high_seats, high_parts) };
    join_mut(rt, &mut front, &mut back);
}

// A round over seats of any kind.
fn round_of<R: Threads + Sync, J: Job, G: Gate, C: Claimer + Send>(
    rt: &R,
    alloc: Global,
    job: &J,
    gate: &G,
    blocks: u32,
    parts: &mut [J::Part],
) -> Result<Round, NoMemory>
    requires blocks { (blocks ≡ J.blocks job.now) × (0 < blocks) × (blocks ≤ 1024) }
    requires parts { (0 < length parts.old) × (length parts.old ≤ 64) × All (λ p. J.is_ready job.now p) parts.old }
    ensures refused { OnErr result (parts.new ≡ parts.old) }
    ensures ready { All (λ p. J.is_ready job.now p) parts.new }
    ensures worked { IfOk result (λ r. IsRound (J.stands_for job.now)
        (plan blocks (length parts.old)) r.owners r.least_bad parts.old parts.new) }
    ensures least { IfOk result (λ r. IsLeastOfRound (J.least_bad job.now) blocks r.least_bad) }
{
    let workers = parts.len() as u32;
    let (board, mut seats) = C::start(alloc, blocks, workers)?;
    run_all(rt, job, gate, &board, seats.as_mut_slice(), parts);
    let Closed { owners, least_bad } = C::close(board, seats);
    Ok(Round { owners, least_bad })
}

/// A round: all blocks of the job, each worked exactly once, by as many workers as there are
/// parts, from 1 to 64. The job has this number of blocks, from 1 to 1,024.
///
/// The loops of the workers run beside each other, by fork and join; if no thread can be made,
/// the caller runs them one after another. Each share is at most 2^62, and grows by the number of
/// blocks that its worker owns. The least bad number is exact, although workers pass over numbers
/// above what they saw.
///
/// # Errors
///
/// `NoMemory` if there is no memory for the claims. It comes before the first loop, and the
/// parts and shares are as before.
pub fn run_round<R: Threads + Sync, J: Job, G: Gate>(
    rt: &R,
    alloc: Global,
    job: &J,
    gate: &G,
    blocks: u32,
    parts: &mut [J::Part],
    shares: &mut Shares,
) -> Result<Round, NoMemory>
    requires blocks { (blocks ≡ J.blocks job.now) × (0 < blocks) × (blocks ≤ 1024) }
    requires parts { (0 < length parts.old) × (length parts.old ≤ 64) × All (λ p. J.is_ready job.now p) parts.old }
    requires shares { (length shares.old ≡ length parts.old) × All (λ share. share ≤ 2 ^ 62) shares.old }
    ensures refused { OnErr result ((parts.new ≡ parts.old) × (shares.new ≡ shares.old)) }
    ensures ready { All (λ p. J.is_ready job.now p) parts.new }
    ensures worked { IfOk result (λ r. IsRound (J.stands_for job.now)
        (plan blocks (length parts.old)) r.owners r.least_bad parts.old parts.new) }

    // The least bad number is exact, and with nothing bad each part stands for its blocks besides.
    ensures least { IfOk result (λ r. IsLeastOfRound (J.least_bad job.now) blocks r.least_bad) }
    ensures clean { IfOk result (λ r. r.least_bad ≡ 2 ^ 64 - 1
        → IsCleanRound (J.stands_for job.now) (plan blocks (length parts.old)) r.owners parts.old parts.new) }

    // Together the shares grow by the number of blocks.
    ensures shares { IfOk result (λ r. GrewBy r.owners shares.old shares.new) }
    ensures all_shares { OnOk result (sum shares.new ≡ sum shares.old + blocks) }
{
    let round = round_of::<R, J, G, RangeSeat>(rt, alloc, job, gate, blocks, parts)?;
    shares.raise(&round.owners);
    Ok(round)
}
