//! What the type of the weights keeps.

ghost use Rattle.std.specs.Prelude.{◌≡◌, ◌+◌, length};
ghost use Rattle.residue.specs.Limits.{AreWeights};

use residue::Setup;

/// The rank of the weights, which is one less than their number. There are 2 to 13 weights, each within its limits: this
/// looks at each, since a weight that a [`Setup`] gives is within its limits.
pub fn rank_of(setup: &Setup) -> u8
    ensures value { result + 1 ≡ length setup.now }
    ensures weights { AreWeights setup.now }
{
    let rank = setup.rank();
    for colour in 0..rank + 1 {
        let _ = setup.weight(colour);
    }
    rank
}
