//! What a call that sums trees comes to.

use residue::Residues;
use worker_pool::Shares;

/// Where a call ended.
#[derive(Debug, Drop)]
pub enum Outcome {
    /// No tree is left.
    Done {
        /// The residues of the sums, integral by integral and within one integral modulus by modulus.
        residues: Residues,
    },
    /// Trees are left.
    Paused {
        /// The number of the next tree.
        next: u64,
        /// The residues of the sums so far, integral by integral and within one integral modulus by modulus.
        residues: Residues,
    },
    /// A tree is bad: its contribution to some integral has no residue for some modulus.
    NoInverse {
        /// The least number of such a tree.
        number: u64,
        /// The index of the first modulus for which it is bad.
        modulus: u8,
    },
}

/// Where a call ended, and who did its work.
#[derive(Debug, Drop)]
pub struct Progress {
    /// Where the call ended.
    pub outcome: Outcome,
    /// For each worker the number of blocks that it worked.
    pub shares: Shares,
}
