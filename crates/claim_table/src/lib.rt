//! The claims of a round: which worker works which block, and the least number that was reported
//! bad.
//!
//! The workers of a round share a board. Each has a seat of its own, takes blocks until there is
//! none left, reports the bad numbers that it meets, and may look at the least that anyone
//! reported so far. When all seats are dry, the board is closed: each block has one owner then.
//! [`Claimer`] is the contract of such a board. [`CursorSeat`] keeps it by one shared cursor. A
//! representation over the words of an atomic table has the views of [`View`], with records of its
//! own.
#![tactic(auto)]

mod claimer;
mod cursor;
mod owners;
mod view;

pub use claimer::{Block, Claimer, Closed, NOTHING_BAD, Plan, Record};
pub use cursor::{Cursor, CursorSeat};
pub use owners::Owners;
pub use view::{Deal, Enter, Gather, View};
