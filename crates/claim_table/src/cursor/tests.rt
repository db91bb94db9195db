// Rounds in a fixed order of takes.
ghost use Rattle.std.specs.Prelude.{◌≡◌, ℕ, ◌<◌, ◌≤◌, length, slice_index_or, All};
ghost use Rattle.claim_table.specs.Seats.{board_plan, seat_record, IsSeatOf};

use crate::Block;
use crate::claimer::{Claimer, Closed};
use crate::cursor::{Cursor, CursorSeat};
use crate::owners::Owners;
use std::alloc::Global;
use std::test::Fail;

const NOTHING_BAD: u64 = u64::MAX;

// The end of the round, at which all seats are dry.
fn finish(board: Cursor, seats: Vec<CursorSeat>) -> Option<Closed>
    requires all { length seats.items ≡ (board_plan board).workers }
    requires seated { All (λ s. IsSeatOf s board) seats.items }
    requires in_order { (k : ℕ) (d : CursorSeat) → k < length seats.items
        → (seat_record (slice_index_or seats.items k d)).worker ≡ k }
{
    for seat in &seats {
        if !seat.dry {
            return None;
        }
    }
    Some(CursorSeat::close(board, seats))
}

#[derive(Drop)]
struct Played {
    seens: Vec<u64>,
    answers: Vec<Option<u32>>,
    closed: Closed,
}

// What each of these workers sees as the least after its report.
fn report_all(
    alloc: Global,
    seats: &mut Vec<CursorSeat>,
    board: &Cursor,
    reports: &[(u32, u64)],
) -> Result<Vec<u64>, Fail>
    requires seated { All (λ s. IsSeatOf s board.now) seats.old.items }
    requires in_order { (k : ℕ) (d : CursorSeat) → k < length seats.old.items
        → (seat_record (slice_index_or seats.old.items k d)).worker ≡ k }
    ensures count { length seats.new.items ≡ length seats.old.items }
    ensures seated { All (λ s. IsSeatOf s board.now) seats.new.items }
    ensures in_order { (k : ℕ) (d : CursorSeat) → k < length seats.new.items
        → (seat_record (slice_index_or seats.new.items k d)).worker ≡ k }
{
    let mut seens = Vec::new(alloc);
    for &(worker, number) in reports {
        if (worker as usize) < seats.len() && number < NOTHING_BAD {
            seats[worker as usize].report_bad(board, number);
            let seen = seats[worker as usize].least_bad(board);
            seens.push(seen)?;
        }
    }
    Ok(seens)
}

// What the takes of these workers answer, one after another.
fn take_all(
    alloc: Global,
    seats: &mut Vec<CursorSeat>,
    board: &Cursor,
    order: &[u32],
) -> Result<Vec<Option<u32>>, Fail>
    requires seated { All (λ s. IsSeatOf s board.now) seats.old.items }
    requires in_order { (k : ℕ) (d : CursorSeat) → k < length seats.old.items
        → (seat_record (slice_index_or seats.old.items k d)).worker ≡ k }
    ensures count { length seats.new.items ≡ length seats.old.items }
    ensures seated { All (λ s. IsSeatOf s board.now) seats.new.items }
    ensures in_order { (k : ℕ) (d : CursorSeat) → k < length seats.new.items
        → (seat_record (slice_index_or seats.new.items k d)).worker ≡ k }
{
    let mut answers = Vec::new(alloc);
    for &worker in order {
        if (worker as usize) < seats.len() {
            let block = seats[worker as usize].take(board);
            answers.push(block.map(|block| block.number))?;
        }
    }
    Ok(answers)
}

// A round with these reports, and then takes by the workers in this order.
fn round(
    alloc: Global,
    blocks: u32,
    workers: u32,
    reports: &[(u32, u64)],
    order: &[u32],
) -> Result<Played, Fail>
    requires blocks { (0 < blocks) × (blocks ≤ 1024) }
    requires workers { (0 < workers) × (workers ≤ 64) }
{
    let (board, mut seats) = CursorSeat::start(alloc, blocks, workers)?;
    let seens = report_all(alloc, &mut seats, &board, reports)?;
    let answers = take_all(alloc, &mut seats, &board, order)?;
    let closed = finish(board, seats).ok_or("a seat is not dry")?;
    Ok(Played {
        seens,
        answers,
        closed,
    })
}

#[test]
fn workers_in_turn_take_1024_blocks(rt: HostRuntime) -> Result<(), Fail> {
    for (workers, first_share) in [(1, 1024), (2, 512), (7, 147), (64, 16)] {
        let mut order = Vec::new(rt.alloc());
        for turn in 0..1024 + workers {
            order.push(turn % workers)?;
        }
        let closed = round(rt.alloc(), 1024, workers, &[], order.as_slice())?.closed;
        for number in [0, 1, 511, 1023] {
            let owner = owner_of(&closed.owners, number);
            assert_eq!(rt;
                owner,
                Some(number % workers),
                "block {number} of {workers} workers"
            );
        }
        assert_eq!(rt; closed.owners.share(0), first_share, "{workers} workers");
    }
    Ok(())
}

#[test]
fn the_least_report_is_seen_and_kept(rt: HostRuntime) -> Result<(), Fail> {
    let reports = [(0, 500), (1, 400), (0, 450)];
    let played = round(rt.alloc(), 1, 2, &reports, &[1, 0, 1])?;
    assert_eq!(rt; played.seens.as_slice(), [500, 400, 400].as_slice());
    assert_eq!(rt; played.closed.least_bad, 400);
    Ok(())
}

fn owner_of(owners: &Owners, number: u32) -> Option<u32> {
    if number < owners.blocks() {
        Some(owners.owner(Block { number }))
    } else {
        None
    }
}
