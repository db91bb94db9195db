//! A round of a job, and the parts for it.

ghost use Rattle.std.specs.Prelude.{◌≡◌, ◌+◌, ◌<◌, ◌≤◌, ◌^◌, [], All, IfOk, OnOk, OnErr, length, sum};
ghost use Rattle.factor_table.specs.Seats.{IsSeatOf};
ghost use Rattle.sum_job.specs.Parts.{JobView, block_count};
ghost use Rattle.list_job.specs.Parts.{size_of, IsReady, StandsFor};
ghost use Rattle.list_job.specs.Listings.{AreListing};
ghost use Rattle.list_job.specs.Jobs.{view};

use crate::job::ListJob;
use crate::part::ListPart;
use factor_table::FactorSeat;
use lists::NoMemory;
use std::alloc::Global;
use std::thread::Threads;
use worker_pool::{Gate, Shares, run_round};

/// A part for each seat, with `room` empty places.
///
/// # Errors
/// `NoMemory` if there is no memory for the parts.
pub fn empty_parts(
    alloc: Global,
    room: u32,
    seats: Vec<FactorSeat>,
) -> Result<Vec<ListPart>, NoMemory>
    ensures many { IfOk result (λ parts. length parts.items ≡ length seats.items) }
    ensures empty { IfOk result (λ parts. (job : JobView) → size_of job ≤ room
        → All (λ seat. IsSeatOf seat job.table) seats.items
        → All (λ part. IsReady job part × StandsFor job part []) parts.items) }
{
    let mut seats = seats;
    let mut parts = Vec::with_capacity(alloc, seats.len())?;
    while let Some(seat) = seats.pop() {
        parts.push(ListPart::new(alloc, room, seat)?)?;
    }
    Ok(parts)
}

/// Lists the numbers of a job on as many workers as there are parts, from 1 to 64. The parts are empty before.
/// Afterwards each number has its entry in exactly one of them, which [`entry_of`](crate::entry_of) finds. Each share
/// grows by the number of blocks that its worker worked.
///
/// # Errors
/// `NoMemory` if there is no memory for the claims of the round. It comes before the first tree is listed, and the parts
/// and shares are as before.
pub fn list_numbers<R: Threads + Sync, G: Gate>(
    rt: &R,
    alloc: Global,
    job: &ListJob,
    gate: &G,
    parts: &mut [ListPart],
    shares: &mut Shares,
) -> Result<(), NoMemory>
    requires workers { (0 < length parts.old) × (length parts.old ≤ 64) }
    requires empty { All (λ part. IsReady (view job.now) part × StandsFor (view job.now) part []) parts.old }
    requires shares { (length shares.old ≡ length parts.old) × All (λ share. share ≤ 2 ^ 62) shares.old }
    ensures listed { OnOk result (AreListing (view job.now) parts.new) }
    ensures blocks { OnOk result (sum shares.new ≡ sum shares.old + block_count job.now.first job.now.end) }
    ensures workers { OnOk result (length shares.new ≡ length shares.old) }
    ensures refused { OnErr result ((parts.new ≡ parts.old) × (shares.new ≡ shares.old)) }
{
    run_round(rt, alloc, job, gate, job.blocks(), parts, shares)?;
    Ok(())
}
