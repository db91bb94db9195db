//! The first difference of lists of residues.

ghost use Rattle.std.specs.Prelude.{◌≡◌, ◌<◌, ◌≤◌, ◌↔◌, All, IsNone, IfSome, length};
ghost use Rattle.cross_job.specs.Differences.{IsFirstDifference, AllAgree, IsFirstDisagreement, first_of};

use residue::Residues;

/// The least index at which two lists of residues differ; the lists are equally long, with at most 64 residues. `None`
/// exactly if they are equal. It takes no memory.
pub fn first_difference(a: &Residues, b: &Residues) -> Option<u32>
    requires as_many { length a.now ≡ length b.now }
    requires few { length a.now ≤ 64 }
    ensures equal { IsNone result ↔ (a.now ≡ b.now) }
    ensures first { IfSome result (IsFirstDifference a.now b.now) }
{
    for index in 0..a.len() {
        if a.get(index) != b.get(index) {
            return Some(index as u32);
        }
    }
    None
}

/// Where lists of residues differ from the first of them.
#[derive(Clone, Copy, Debug, PartialEq, Eq, Drop)]
pub struct Disagreement {
    /// The index of the list.
    pub list: usize,
    /// The least index at which it differs from the first list.
    pub index: u32,
}

/// The first of some lists of residues that is not equal to the very first, with the least index at which it differs; all
/// lists are equally long, with at most 64 residues. `None` exactly if all are equal. It takes no memory.
pub fn first_disagreement(lists: &[Residues]) -> Option<Disagreement>
    requires some { 0 < length lists.now }
    requires as_many { All (λ list. length list ≡ length (first_of lists.now)) lists.now }
    requires few { length (first_of lists.now) ≤ 64 }
    ensures agree { IsNone result ↔ AllAgree lists.now }
    ensures first { IfSome result (λ found. IsFirstDisagreement lists.now found.list found.index) }
{
    for list in 1..lists.len() {
        if let Some(index) = first_difference(&lists[0], &lists[list]) {
            return Some(Disagreement { list, index });
        }
    }
    None
}
