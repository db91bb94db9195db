// Rounds of a job whose blocks have one number each: that the loops run beside each other, that workers
// steal, and what a round answers.
ghost use Rattle.std.specs.Prelude.{◌≡◌, ℕ, ◌<◌, ◌≤◌, ◌%◌, ◌^◌, length, slice_index};
ghost use Rattle.worker_pool.specs.Marks.{mark_of, mark_below};

use crate::gate::Gate;
use crate::job::Job;
use crate::meeting::{Hold, MeetingGate};
use crate::pool::{Round, run_round};
use crate::shares::Shares;
use claim_table::{Block, NOTHING_BAD};
use std::alloc::Global;
use std::sync::atomic::{AtomicU64, Ordering};
use std::test::Fail;
use std::thread::Threads;

// For each block its bad number, or 2^64 - 1 if it has none.
#[derive(Drop)]
struct Marks<'a> {
    bad: &'a [u64],
}

// How many blocks were worked, and the sum of their numbers.
#[derive(Clone, Copy)]
struct Tally {
    count: u64,
    numbers: u64,
}

impl Job for Marks<'_> {
    type Part = Tally;

    ghost blocks = { λ j. length j.bad.now };

    ghost least_bad = { λ j block. mark_of (slice_index j.bad.now block) };

    ghost is_ready = { λ _ _. Unit {0} };

    ghost stands_for = { λ _ p pairs. p.count ≡ length pairs % 2 ^ 64 };

    fn work(&self, part: &mut Tally, block: Block, seen: u64) -> Option<u64> {
        part.count = part.count.wrapping_add(1);
        part.numbers = part.numbers.wrapping_add(block.number as u64);
        let least = self.bad[block.number as usize];
        if least < NOTHING_BAD && least <= seen {
            Some(least)
        } else {
            None
        }
    }

    ghost bad_below = { λ j block bad _ is. mark_below (slice_index j.bad.now block) bad is };
}

// Lets every worker pass.
#[derive(Drop)]
struct Open;

impl Gate for Open {
    fn pass(&self, _worker: u32, _turn: u64) {}
}

// Counts all passes, and adds up the turns and the numbers of the workers.
#[derive(Drop)]
struct Count {
    passes: AtomicU64,
    turns: AtomicU64,
    workers: AtomicU64,
}

impl Count {
    fn new() -> Count {
        Count {
            passes: AtomicU64::new(0),
            turns: AtomicU64::new(0),
            workers: AtomicU64::new(0),
        }
    }

    fn counts(&self) -> (u64, u64, u64) {
        (
            self.passes.load(Ordering::SeqCst),
            self.turns.load(Ordering::SeqCst),
            self.workers.load(Ordering::SeqCst),
        )
    }
}

impl Gate for Count {
    fn pass(&self, worker: u32, turn: u64) {
        self.passes.fetch_add(1, Ordering::SeqCst);
        self.turns.fetch_add(turn, Ordering::SeqCst);
        self.workers.fetch_add(worker as u64, Ordering::SeqCst);
    }
}

#[derive(Drop)]
struct Played {
    round: Round,
    parts: Vec<Tally>,
    shares: Shares,
}

// A round by so many workers, each with an empty part.
fn play<R: Threads + Sync, G: Gate>(
    rt: &R,
    alloc: Global,
    bad: &[u64],
    workers: u32,
    gate: &G,
) -> Result<Played, Fail>
    requires blocks { (0 < length bad.now) × (length bad.now ≤ 1024) }
    requires workers { (0 < workers) × (workers ≤ 64) }
{
    let empty = Tally {
        count: 0,
        numbers: 0,
    };
    let mut parts = Vec::from_elem(alloc, empty, workers as usize)?;
    let mut shares = Shares::new(workers);
    let blocks = bad.len() as u32;
    let job = Marks { bad };
    let round = run_round(
        rt,
        alloc,
        &job,
        gate,
        blocks,
        parts.as_mut_slice(),
        &mut shares,
    )?;
    Ok(Played {
        round,
        parts,
        shares,
    })
}

// The number of blocks worked, and the sum of their numbers, over all parts.
fn worked(parts: &[Tally]) -> (u64, u64) {
    let mut count = 0u64;
    let mut numbers = 0u64;
    for part in parts {
        count = count.wrapping_add(part.count);
        numbers = numbers.wrapping_add(part.numbers);
    }
    (count, numbers)
}

// Each worker's share, in the shares and among the owners, is the number of blocks that it worked.
fn shares_agree(played: &Played) -> bool {
    if played.shares.len() != played.parts.len() {
        return false;
    }
    for (worker, part) in played.parts.iter().enumerate() {
        let Ok(number) = u32::try_from(worker) else {
            return false;
        };
        let owned = played.round.owners.share(number);
        if owned != part.count || played.shares.get(worker) != part.count {
            return false;
        }
    }
    true
}

// A pool that runs one loop to its end before the other, in either order, gives up.
#[test]
fn two_loops_run_beside_each_other(rt: HostRuntime) -> Result<(), Fail> {
    let gate = MeetingGate::new(Hold { at: 0, until: 1 }, Hold { at: 1, until: 0 });
    let played = play(&rt, rt.alloc(), &[NOTHING_BAD; 88], 2, &gate)?;
    assert!(rt;
        gate.have_met(),
        "a worker was held, and the other did not come"
    );
    assert_eq!(rt; worked(played.parts.as_slice()), (88, 3828));
    Ok(())
}

// Worker 1 starts with 44 of the 88 blocks, and its turn 45 comes only after it has taken 45. So a
// pool whose workers never steal gives up here. One take of worker 0 comes before all of worker 1,
// and then worker 0 is held, so that no take of it falls into a cut.
#[test]
fn a_worker_steals_what_another_leaves(rt: HostRuntime) -> Result<(), Fail> {
    let gate = MeetingGate::new(Hold { at: 1, until: 45 }, Hold { at: 0, until: 1 });
    let played = play(&rt, rt.alloc(), &[NOTHING_BAD; 88], 2, &gate)?;
    assert!(rt;
        gate.have_met(),
        "a worker was held, and the other did not come"
    );
    assert_eq!(rt; worked(played.parts.as_slice()), (88, 3828));
    assert!(rt; shares_agree(&played));
    Ok(())
}

// A lone worker takes 5 blocks, and then none: six passes, with the turns 0 to 5. Of 64 workers that
// share one block, one passes with the turns 0 and 1, and each other once, with the turn 0.
#[test]
fn each_take_has_one_pass(rt: HostRuntime) -> Result<(), Fail> {
    let alone = Count::new();
    play(&rt, rt.alloc(), &[NOTHING_BAD; 5], 1, &alone)?;
    assert_eq!(rt; alone.counts(), (6, 15, 0));
    let crowd = Count::new();
    play(&rt, rt.alloc(), &[NOTHING_BAD], 64, &crowd)?;
    assert_eq!(rt; crowd.counts(), (65, 1, 2016 + 63));
    Ok(())
}

#[test]
fn sixty_four_workers_share_one_block(rt: HostRuntime) -> Result<(), Fail> {
    let played = play(&rt, rt.alloc(), &[7], 64, &Open)?;
    assert_eq!(rt; worked(played.parts.as_slice()), (1, 0));
    assert_eq!(rt; played.round.owners.blocks(), 1);
    assert_eq!(rt; played.round.least_bad, 7);
    Ok(())
}

#[test]
fn each_of_1024_blocks_is_worked_once(rt: HostRuntime) -> Result<(), Fail> {
    let bad = [NOTHING_BAD; 1024];
    for workers in [1, 2, 7, 64] {
        let played = play(&rt, rt.alloc(), &bad, workers, &Open)?;
        assert_eq!(rt;
            worked(played.parts.as_slice()),
            (1024, 523776),
            "{workers} workers"
        );
        assert_eq!(rt; played.round.least_bad, NOTHING_BAD, "{workers} workers");
        assert!(rt; shares_agree(&played), "{workers} workers");
    }
    Ok(())
}

#[test]
fn the_least_bad_number_is_exact(rt: HostRuntime) -> Result<(), Fail> {
    let mut bad = [NOTHING_BAD; 100];
    for (block, number) in [(3, 900), (40, 450), (41, 400), (99, 500)] {
        bad[block] = number;
    }
    for workers in [1, 2, 7, 64] {
        let played = play(&rt, rt.alloc(), &bad, workers, &Open)?;
        assert_eq!(rt; played.round.least_bad, 400, "{workers} workers");
    }
    Ok(())
}

#[test]
fn shares_begin_at_zero(rt: HostRuntime) {
    for workers in [0, 1, 64] {
        let shares = Shares::new(workers);
        assert_eq!(rt; shares.len(), workers as usize);
        assert_eq!(rt; shares.is_empty(), workers == 0);
        if workers > 0 {
            assert!(rt; 0 < shares.len());
            assert_eq!(rt; shares.get(0), 0);
        }
    }
}
