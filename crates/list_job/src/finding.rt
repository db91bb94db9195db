//! The entry of a number among the parts of all workers.

ghost use Rattle.std.specs.Prelude.{◌≡◌, ◌<◌, ◌≤◌};
ghost use Rattle.problem.specs.Problems.{view as problem_view};
ghost use Rattle.table_sum.specs.Sums.{problem_of};
ghost use Rattle.list_job.specs.Entries.{IsEntryOf};
ghost use Rattle.list_job.specs.Listings.{AreListing};
ghost use Rattle.list_job.specs.Jobs.{view};

use crate::entry::Entry;
use crate::job::ListJob;
use crate::part::ListPart;

/// The entry of a number of a job, in the one of the parts that has it. The parts list the numbers of the job, as they
/// do after a round over empty parts. It takes no memory.
pub fn entry_of<'p>(job: &ListJob, parts: &'p [ListPart], number: u64) -> &'p Entry
    requires listed { AreListing (view job.now) parts.now }
    requires from { job.now.first ≤ number }
    requires below { number < job.now.end }
    ensures { IsEntryOf (problem_view (problem_of job.now.sum.now)) number result.now }
{
    let place = (number - job.first) as u32;
    for part in parts {
        if let Some(entry) = part.entry(place) {
            return entry;
        }
    }
    unreachable!()
}
