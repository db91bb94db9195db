//! The parts of all workers.

ghost use Rattle.std.specs.Prelude.{◌≡◌, [], All, IfOk, length};
ghost use Rattle.factor_table.specs.declared.table.FactorTable.{FactorTable};
ghost use Rattle.factor_table.specs.Seats.{IsSeatOf};
ghost use Rattle.sum_job.specs.Parts.{JobView, KeepsJob, IsReady, StandsFor};

use factor_table::FactorSeat;
use residue::NoMemory;
use std::alloc::Global;
use sum_job::PartSum;

/// A part for each seat.
pub(crate) fn new_parts(alloc: Global, seats: Vec<FactorSeat>) -> Result<Vec<PartSum>, NoMemory>
    ensures many { IfOk result (λ parts. length parts.items ≡ length seats.items) }
    ensures seats { IfOk result (λ parts. (table : FactorTable) → All (λ seat. IsSeatOf seat table) seats.items
        → All (λ part. IsSeatOf part.seat table) parts.items) }
{
    let mut seats = seats;
    let mut parts = Vec::with_capacity(alloc, seats.len())?;
    while let Some(seat) = seats.pop() {
        parts.push(PartSum::new(seat))?;
    }
    Ok(parts)
}

/// Makes each part stand for no block. Each keeps its seat.
pub(crate) fn clear_all(parts: &mut [PartSum])
    ensures { (job : JobView) → KeepsJob job → All (λ part. IsSeatOf part.seat job.table) parts.old
        → All (λ part. IsReady job part × StandsFor job part []) parts.new }
{
    for part in parts.iter_mut() {
        part.clear();
    }
}
