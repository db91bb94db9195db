// What is known of a worker whose blocks stand in ranges: what contracts and the rule speak of.
use claim_table::Record;
use std::collections::LinkedList;

/// A victim's word as a thief found it. The code never makes a value of this type: it stands in contracts alone.
pub struct Look {
    /// The worker whose word it is.
    pub victim: u32,
    /// The word.
    pub word: u64,
}

/// What a worker did in a round, what it holds and what it has looked at. The code never makes a
/// value of it.
pub struct RangeRecord {
    /// What a seat means to a claimer.
    pub done: Record,
    /// The first block of the hand. There is no hand if it is not below the hand's end.
    pub hand_lo: u32,
    /// The block after the last of the hand.
    pub hand_hi: u32,
    /// A hand was published, and no take came since.
    pub fresh: bool,
    /// The words of victims that it found, in order.
    pub looks: LinkedList<Look>,
}
