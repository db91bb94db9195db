// The rule of the range words, and what the caller of each kind of step knows after it.
use crate::history::RangeRecord;
use atomic_table::{Play, TableRule};
use claim_table::{Plan, View};

// The rule of the range words.
pub struct RangeRule;

impl TableRule<(), View<RangeRecord>, Plan> for RangeRule {
    ghost use Rattle.range_deque.specs.Ranges.{RangesHold, opening_view};

    ghost holds = { RangesHold };

    ghost first = { opening_view };
}

// A take of the first block of the own word.
pub struct TakeFront;

impl Play<(), View<RangeRecord>> for TakeFront {
    ghost use Rattle.range_deque.specs.Ranges.{Takes};

    ghost then = { Takes };
}

// A load of a victim's word.
pub struct LookAt;

impl Play<(), View<RangeRecord>> for LookAt {
    ghost use Rattle.range_deque.specs.Ranges.{Looks};

    ghost then = { Looks };
}

// An exchange that cuts the back half off a victim's word.
pub struct CutBack;

impl Play<(), View<RangeRecord>> for CutBack {
    ghost use Rattle.range_deque.specs.Ranges.{Cuts};

    ghost then = { Cuts };
}

// The hand becomes the own word.
pub struct PublishHand;

impl Play<(), View<RangeRecord>> for PublishHand {
    ghost use Rattle.range_deque.specs.Ranges.{Publishes};

    ghost then = { Publishes };
}

// The bad word becomes the lesser of itself and a reported number.
pub struct ReportNumber;

impl Play<(), View<RangeRecord>> for ReportNumber {
    ghost use Rattle.range_deque.specs.Ranges.{Reports};

    ghost then = { Reports };
}

// A load of the bad word.
pub struct SeeLeast;

impl Play<(), View<RangeRecord>> for SeeLeast {
    ghost use Rattle.range_deque.specs.Ranges.{Sees};

    ghost then = { Sees };
}
