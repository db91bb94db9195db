//! What one worker gathers for several problems.

ghost use Rattle.std.specs.Prelude.{◌≡◌, ◌<◌, [], IfOk, length};
ghost use Rattle.cross_job.specs.Cross.{CrossView, AreReady, StandFor, AreSeatsOf, AreFresh, seats_of, sums_in};
ghost use Rattle.cross_job.specs.CrossParts.{parts_of, sum_at};

use factor_table::FactorSeat;
use lists::NoMemory;
use std::alloc::Global;
use sum_job::PartSum;

/// The sums of the blocks that one worker worked, and its seats at the tables of factors: a part for each of some
/// problems, in order.
#[derive(Drop)]
pub struct CrossPart {
    pub(crate) parts: Vec<PartSum>,
}

impl CrossPart {
    /// The part of a worker that worked no block, with a seat at the table of each problem, in order.
    ///
    /// # Errors
    /// `NoMemory` if there is no memory for the sums.
    pub fn new(alloc: Global, seats: Vec<FactorSeat>) -> Result<CrossPart, NoMemory>
        ensures seats { IfOk result (λ part. seats_of (parts_of part) ≡ seats.items) }
        ensures fresh { IfOk result (λ part. AreFresh (parts_of part)) }
        ensures empty { IfOk result (λ part. (v : CrossView) → AreSeatsOf seats.items v.sums
            → AreReady v (parts_of part) × StandFor v (parts_of part) []) }
    {
        let mut parts = Vec::with_capacity(alloc, seats.len())?;
        for seat in seats {
            parts.push(PartSum::new(seat))?;
        }
        Ok(CrossPart { parts })
    }

    /// The sum for the problem at an index, for the integral and the modulus of a place below 64. It takes no memory.
    pub fn sum(&self, problem: u8, place: u8) -> u64
        requires problem { problem < length (parts_of self.now) }
        requires place { place < 64 }
        ensures { result ≡ sum_at problem place self.now }
    {
        self.sums(problem as usize)[place as usize]
    }

    /// The sums for the problem at an index, integral by integral and within one integral modulus by modulus. It takes
    /// no memory.
    pub fn sums(&self, problem: usize) -> &[u64; 64]
        requires { problem < length (parts_of self.now) }
        ensures { result.now ≡ sums_in problem (parts_of self.now) }
    {
        &self.parts[problem].sums
    }

    /// Forgets all blocks that were worked, but nothing that the seats know. It takes no memory.
    pub fn clear(&mut self)
        ensures seats { seats_of (parts_of self.new) ≡ seats_of (parts_of self.old) }
        ensures fresh { AreFresh (parts_of self.new) }
        ensures empty { (v : CrossView) → AreSeatsOf (seats_of (parts_of self.old)) v.sums
            → AreReady v (parts_of self.new) × StandFor v (parts_of self.new) [] }
    {
        clear_all(self.parts.as_mut_slice());
    }
}

/// Makes each part forget its blocks, but not what its seat knows.
fn clear_all(parts: &mut [PartSum])
    ensures seats { seats_of parts.new ≡ seats_of parts.old }
    ensures fresh { AreFresh parts.new }
{
    for part in parts.iter_mut() {
        part.clear();
    }
}
