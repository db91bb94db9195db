// Rounds in a fixed order of steps: what each step answers, and who owns which block at the end.
ghost use Rattle.std.specs.Prelude.{◌≡◌, ℕ, ◌<◌, ◌≤◌, length, slice_index_or, All};
ghost use Rattle.range_deque.specs.Seats.{board_plan, seat_record, IsSeatOf};

use crate::ranges::{Cut, RangeSeat, Ranges};
use claim_table::{Block, Claimer, Closed, NOTHING_BAD, Owners};
use std::alloc::Global;
use std::test::Fail;

#[derive(Clone, Copy, Debug, PartialEq, Eq)]
enum Step {
    Own,
    Cut(u32),
    Publish,
    Take,
    Report(u64),
}

#[derive(Clone, Copy, Debug, PartialEq, Eq)]
enum Answer {
    Block(Option<u32>),
    Cut(Cut),
    Published,
    Least(u64),
    Refused,
}

// One step of a seat, if what it asks for holds.
fn make_step(seat: &mut RangeSeat, board: &Ranges, step: Step) -> Answer
    requires { IsSeatOf seat.old board.now }
    ensures seated { IsSeatOf seat.new board.now }
    ensures worker { (seat_record seat.new).worker ≡ (seat_record seat.old).worker }
{
    let free = seat.lo >= seat.hi;
    match step {
        Step::Own if free => {
            let block = seat.take_own(board);
            Answer::Block(block.map(|block| block.number))
        }
        Step::Cut(victim) if free && seat.dry && victim < seat.workers && victim != seat.number => {
            let cut = seat.cut(board, victim);
            Answer::Cut(cut)
        }
        Step::Publish if !free => {
            seat.publish(board);
            Answer::Published
        }
        Step::Take if free => {
            let block = seat.take(board);
            Answer::Block(block.map(|block| block.number))
        }
        Step::Report(number) if number < NOTHING_BAD => {
            seat.report_bad(board, number);
            let least = seat.least_bad(board);
            Answer::Least(least)
        }
        _ => Answer::Refused,
    }
}

// One step of this worker's seat, if there is one.
fn step_of(seats: &mut Vec<RangeSeat>, board: &Ranges, worker: u32, step: Step) -> Answer
    requires seated { All (λ s. IsSeatOf s board.now) seats.old.items }
    requires in_order { (k : ℕ) (d : RangeSeat) → k < length seats.old.items
        → (seat_record (slice_index_or seats.old.items k d)).worker ≡ k }
    ensures count { length seats.new.items ≡ length seats.old.items }
    ensures seated { All (λ s. IsSeatOf s board.now) seats.new.items }
    ensures in_order { (k : ℕ) (d : RangeSeat) → k < length seats.new.items
        → (seat_record (slice_index_or seats.new.items k d)).worker ≡ k }
{
    if (worker as usize) < seats.len() {
        make_step(&mut seats[worker as usize], board, step)
    } else {
        Answer::Refused
    }
}

// What these steps answer, one after another.
fn play(
    alloc: Global,
    seats: &mut Vec<RangeSeat>,
    board: &Ranges,
    steps: &[(u32, Step)],
) -> Result<Vec<Answer>, Fail>
    requires seated { All (λ s. IsSeatOf s board.now) seats.old.items }
    requires in_order { (k : ℕ) (d : RangeSeat) → k < length seats.old.items
        → (seat_record (slice_index_or seats.old.items k d)).worker ≡ k }
    ensures count { length seats.new.items ≡ length seats.old.items }
    ensures seated { All (λ s. IsSeatOf s board.now) seats.new.items }
    ensures in_order { (k : ℕ) (d : RangeSeat) → k < length seats.new.items
        → (seat_record (slice_index_or seats.new.items k d)).worker ≡ k }
{
    let mut answers = Vec::new(alloc);
    for &(worker, next) in steps {
        let answer = step_of(seats, board, worker, next);
        answers.push(answer)?;
    }
    Ok(answers)
}

// The end of the round, if all seats are dry and have no hand.
fn finish(board: Ranges, seats: Vec<RangeSeat>) -> Option<Closed>
    requires all { length seats.items ≡ (board_plan board).workers }
    requires seated { All (λ s. IsSeatOf s board) seats.items }
    requires in_order { (k : ℕ) (d : RangeSeat) → k < length seats.items
        → (seat_record (slice_index_or seats.items k d)).worker ≡ k }
{
    for seat in &seats {
        if !seat.dry || seat.lo < seat.hi {
            return None;
        }
    }
    Some(RangeSeat::close(board, seats))
}

fn owner_of(owners: &Owners, number: u32) -> Option<u32> {
    if number < owners.blocks() {
        Some(owners.owner(Block { number }))
    } else {
        None
    }
}

#[test]
fn a_worker_takes_the_back_half_of_anothers_range(rt: HostRuntime) -> Result<(), Fail> {
    let (board, mut seats) = RangeSeat::start(rt.alloc(), 5, 2)?;
    let steps = [
        (0, Step::Own),
        (0, Step::Own),
        (0, Step::Own),
        (0, Step::Cut(1)),
        (0, Step::Publish),
        (0, Step::Own),
        (1, Step::Own),
        (1, Step::Own),
        (1, Step::Own),
        (0, Step::Own),
        (0, Step::Cut(1)),
    ];
    let answers = play(rt.alloc(), &mut seats, &board, &steps)?;
    let wanted = [
        Answer::Block(Some(0)),
        Answer::Block(Some(1)),
        Answer::Block(None),
        Answer::Cut(Cut::Took { lo: 4, hi: 5 }),
        Answer::Published,
        Answer::Block(Some(4)),
        Answer::Block(Some(2)),
        Answer::Block(Some(3)),
        Answer::Block(None),
        Answer::Block(None),
        Answer::Cut(Cut::Short {
            word: (4 << 32) + 5,
        }),
    ];
    assert_eq!(rt; answers.as_slice(), wanted.as_slice());
    let closed = finish(board, seats).ok_or("a seat is not dry")?;
    for (number, worker) in [(0, 0), (1, 0), (2, 1), (3, 1), (4, 0)] {
        assert_eq!(rt; owner_of(&closed.owners, number), Some(worker));
    }
    Ok(())
}

#[test]
fn the_least_report_is_seen_and_kept(rt: HostRuntime) -> Result<(), Fail> {
    let (board, mut seats) = RangeSeat::start(rt.alloc(), 1, 2)?;
    let steps = [
        (0, Step::Report(500)),
        (1, Step::Report(400)),
        (0, Step::Report(450)),
        (1, Step::Take),
        (1, Step::Take),
        (0, Step::Take),
    ];
    let answers = play(rt.alloc(), &mut seats, &board, &steps)?;
    let wanted = [
        Answer::Least(500),
        Answer::Least(400),
        Answer::Least(400),
        Answer::Block(Some(0)),
        Answer::Block(None),
        Answer::Block(None),
    ];
    assert_eq!(rt; answers.as_slice(), wanted.as_slice());
    let closed = finish(board, seats).ok_or("a seat is not dry")?;
    assert_eq!(rt; closed.least_bad, 400);
    Ok(())
}
