//! Runs whose two workers wait for each other: the loops of a round run beside each other, and workers steal.
//!
//! The 5,620 trees of the cubics on the quintic threefold are one round of 88 blocks, of which each worker starts with 44.

use crate::tests::cases::{CUBIC_SUM, CUBICS};
use crate::tests::{outcome, outcome_by, sound};
use std::alloc::Global;
use std::process::Abort;
use std::test::Fail;
use std::thread::Threads;
use worker_pool::{Hold, MeetingGate};

// A run on two workers: its words, the text of its file, what it tells, and how many blocks it works.
#[derive(Drop)]
struct Meeting<'a> {
    words: &'a [&'a str],
    text: &'a str,
    wanted: &'a str,
    blocks: u64,
}

const RUN: &Meeting = &Meeting {
    words: &["locus", "run", "f", "--workers", "2"],
    text: CUBICS,
    wanted: CUBIC_SUM,
    blocks: 88,
};

const SOAK: &Meeting = &Meeting {
    words: &["locus", "soak", "0", "--workers", "2"],
    text: "",
    wanted: "0 soak 0\ntrees 5620\nresidue 1000000007 132021295\nresidue 1000000009 169058332\n\
        fraction 8564575000/27\n|",
    blocks: 88,
};

// A gate at which worker 0 waits until worker 1 has taken a block, and worker 1 then until worker 0 has come.
fn beside() -> MeetingGate {
    MeetingGate::new(Hold { at: 0, until: 1 }, Hold { at: 1, until: 0 })
}

// Both workers come to their turns at the gate, and none gives up.
fn meet<R: Threads + Sync + Abort>(
    rt: &R,
    alloc: Global,
    gate: &MeetingGate,
    meeting: &Meeting<'_>,
) -> Result<(), Fail> {
    let ended = outcome_by(rt, alloc, meeting.words, &sound(meeting.text), gate)?;
    let told = ended.told(alloc)?;
    assert_eq!(rt; told.as_str(), meeting.wanted);
    assert_eq!(rt; ended.shares, (2, meeting.blocks));
    assert!(rt;
        gate.have_met(),
        "a worker was held, and the other did not come"
    );
    Ok(())
}

// A program that runs one loop to its end before the other, in either order, gives up.
#[test]
fn two_workers_run_beside_each_other(rt: HostRuntime) -> Result<(), Fail> {
    meet(&rt, rt.alloc(), &beside(), RUN)
}

#[test]
fn two_workers_of_soak_run_beside_each_other(rt: HostRuntime) -> Result<(), Fail> {
    meet(&rt, rt.alloc(), &beside(), SOAK)
}

// Of the cubics 4,620 trees are left behind the first 1,000, in 73 blocks.
#[test]
fn two_workers_of_resume_run_beside_each_other(rt: HostRuntime) -> Result<(), Fail> {
    let alloc = rt.alloc();
    let words = ["locus", "run", "f", "--budget", "1000"];
    let paused = outcome(&rt, alloc, &words, &sound(CUBICS))?;
    let meeting = Meeting {
        words: &["locus", "resume", "f", "--workers", "2"],
        text: paused.out.as_str(),
        wanted: CUBIC_SUM,
        blocks: 73,
    };
    meet(&rt, alloc, &beside(), &meeting)
}

// The turn 45 of worker 1 comes only after it has taken 45 blocks, so a program whose workers never steal gives up. One
// take of worker 0 comes before all of worker 1, and then worker 0 is held, so that no take of it falls into a cut.
#[test]
fn a_worker_steals_the_blocks_of_another(rt: HostRuntime) -> Result<(), Fail> {
    let gate = MeetingGate::new(Hold { at: 1, until: 45 }, Hold { at: 0, until: 1 });
    meet(&rt, rt.alloc(), &gate, RUN)
}
