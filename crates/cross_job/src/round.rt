//! One round for several problems.

ghost use Rattle.std.specs.Prelude.{◌≡◌, ◌+◌, ◌<◌, ◌≤◌, ◌^◌, true, [], All, IfOk, OnOk, OnErr, length, sum};
ghost use Rattle.problem.specs.Sums.{count_of};
ghost use Rattle.sum_job.specs.Parts.{block_count};
ghost use Rattle.cross_job.specs.Cross.{CrossView, view_of, is_bad_for_some, AreReady, StandFor, AreSeatsOf, seats_of};
ghost use Rattle.cross_job.specs.CrossParts.{parts_of};
ghost use Rattle.cross_job.specs.Found.{IsFirstBadProblem};
ghost use Rattle.cross_job.specs.Totals.{IsRoundOf};

use crate::found::{BadProblem, first_bad_problem};
use crate::job::CrossJob;
use crate::part::CrossPart;
use claim_table::NOTHING_BAD;
use lists::NoMemory;
use std::alloc::Global;
use std::thread::Threads;
use table_sum::TableSum;
use worker_pool::{Gate, Shares, run_round};

/// A number that is bad for some of several problems.
#[derive(Clone, Copy, Debug, PartialEq, Eq, Drop)]
pub struct BadNumber {
    /// The number.
    pub number: u64,
    /// The first of the problems for which it is bad.
    pub first: BadProblem,
}

/// Sums the trees of the numbers from `first` to `end - 1` for each of some problems, on as many workers as there are
/// parts. No number is bad for any of the problems if the answer is `None`, and then all parts together hold the sums:
/// [`crate::add_column`] adds up those of one problem. Otherwise the least number that is bad for some problem is
/// returned. What the parts held before does not matter, but for their seats, which are of the problems' tables and stay
/// so.
///
/// # Errors
/// `NoMemory` if there is no memory for the claims of the round. It comes before the first tree is summed.
pub fn sum_round<R: Threads + Sync, G: Gate>(
    rt: &R,
    alloc: Global,
    sums: &[TableSum],
    first: u64,
    end: u64,
    gate: &G,
    parts: &mut [CrossPart],
    shares: &mut Shares,
) -> Result<Option<BadNumber>, NoMemory>
    requires some { first < end }
    requires within { All (λ sum. end ≤ count_of (view_of sum)) sums.now }
    requires few { end ≤ first + 65536 }
    requires limited { end ≤ 2 ^ 40 }
    requires parts { (0 < length parts.old) × (length parts.old ≤ 64) }
    requires seats { All (λ part. AreSeatsOf (seats_of (parts_of part)) sums.now) parts.old }
    requires shares { (length shares.old ≡ length parts.old) × All (λ share. share ≤ 2 ^ 62) shares.old }
    ensures summed { IfOk result (IsRoundOf (record { sums = sums.now; first = first; end = end }) parts.new) }
    ensures blocks { OnOk result (sum shares.new ≡ sum shares.old + block_count first end) }
    ensures workers { OnOk result (length shares.new ≡ length shares.old) }
    ensures seats { All (λ part. AreSeatsOf (seats_of (parts_of part)) sums.now) parts.new }
    ensures refused { OnErr result (shares.new ≡ shares.old) }
{
    clear_all(parts);
    let job = CrossJob::new(sums, first, end);
    let round = run_round(rt, alloc, &job, gate, job.blocks(), parts, shares)?;
    if round.least_bad == NOTHING_BAD {
        return Ok(None);
    }
    Ok(Some(bad_number(sums, round.least_bad)))
}

/// Makes each part forget its blocks. Each keeps its seats.
fn clear_all(parts: &mut [CrossPart])
    ensures { (v : CrossView) → All (λ part. AreSeatsOf (seats_of (parts_of part)) v.sums) parts.old
        → All (λ part. AreReady v (parts_of part) × StandFor v (parts_of part) []) parts.new }
{
    for part in parts.iter_mut() {
        part.clear();
    }
}

/// A number that is bad for some problem, with the first such problem.
fn bad_number(sums: &[TableSum], number: u64) -> BadNumber
    requires within { All (λ sum. number < count_of (view_of sum)) sums.now }
    requires bad { is_bad_for_some sums.now number ≡ true }
    ensures number { result.number ≡ number }
    ensures first { IsFirstBadProblem sums.now number result.first }
{
    match first_bad_problem(sums, number) {
        Some(first) => BadNumber { number, first },
        None => unreachable!(),
    }
}
