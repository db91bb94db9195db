//! The residues of one over the number of numberings of a tree's vertices.

ghost use Rattle.std.specs.Prelude.{◌≡◌, ◌<◌, ◌≤◌, length, slice_index};
ghost use Rattle.residue.specs.Answers.{GivesResidue};
ghost use Rattle.table_sum.specs.Numberings.{one_numbering, AreInverses, AreNumberings};

use residue::{Moduli, Modulus, NoUnit};

/// The residues of `1/n!` for `n` up to 11, modulo each modulus of a list, each found once.
#[derive(Drop)]
pub struct Numberings {
    rows: [[Result<u64, NoUnit>; 12]; 8],
}

impl Numberings {
    ghost use Rattle.std.specs.Prelude.{ℕ, ◌<◌, ◌≤◌, List, length, slice_index};
    ghost use Rattle.residue.specs.Answers.{GivesResidue};
    ghost use Rattle.table_sum.specs.Numberings.{one_numbering, AreNumberings};

    /// The residues modulo each of at most 8 moduli.
    pub fn of(moduli: &Moduli) -> Self
        requires { length moduli.now ≤ 8 }
        ensures { AreNumberings moduli.now result.rows }
    {
        let mut rows = [[Err(NoUnit); 12]; 8];
        for index in 0..moduli.len() {
            rows[index] = inverses(moduli.get(index));
        }
        Numberings { rows }
    }

    /// The residue of `1/n!` for the modulus at an index.
    ///
    /// # Errors
    /// `NoUnit` exactly if `n!` and the modulus have a common divisor above 1.
    pub(crate) fn residue(&self, index: u8, n: u8) -> Result<u64, NoUnit>
        requires index { index < 8 }
        requires n { n < 12 }
        ensures { (ms : List ℕ) → index < length ms → AreNumberings ms self.now.rows
            → GivesResidue (slice_index ms index) (one_numbering n) result }
    {
        self.rows[index as usize][n as usize]
    }
}

/// The residues of `1/n!` for `n` up to 11 modulo a modulus.
fn inverses(modulus: &Modulus) -> [Result<u64, NoUnit>; 12]
    ensures { AreInverses modulus.now result }
{
    let mut row = [Err(NoUnit); 12];
    for n in 0..row.len() {
        row[n] = inverse_factorial(n as u8, modulus);
    }
    row
}

/// The residue of `1/n!` modulo a modulus.
fn inverse_factorial(n: u8, modulus: &Modulus) -> Result<u64, NoUnit>
    ensures { GivesResidue modulus.now (one_numbering n) result }
{
    modulus.quotient(modulus.of_u64(1), modulus.factorial(n))
}
