// The seats at the deque of a batch.

ghost use Rattle.std.specs.Prelude.{◌≡◌, ◌<◌};
ghost use Rattle.crossbeam_deque.specs.Handles.{worker_flavor, stealer_flavor, stealer_deque, view, IsPassOf};

use crate::rule::{BatchRule, Hand};
use crossbeam_deque::{Pass, Stealer, Worker};
use std::alloc::Global;

/// Worker 0's seat, from which places are pushed and popped.
#[derive(Drop)]
pub struct OwnerSeat {
    pub(crate) deque: Worker<u32, Global, Hand, BatchRule>,
    ghost fifo: { worker_flavor deque ≡ 0 },
}

/// A thief's seat, from which places are stolen.
#[derive(Drop)]
pub struct ThiefSeat {
    pub(crate) deque: Stealer<u32, Global, Hand, BatchRule>,
    pub(crate) pass: Pass<u32, Hand>,
    ghost fifo: { stealer_flavor deque ≡ 0 },
    ghost at_deque: { IsPassOf (stealer_deque deque) pass },
    ghost seated: { 0 < (view pass).seats },
}
