// The house itself.
ghost use Rattle.std.specs.Prelude.{◌≤◌};
ghost use Rattle.std.specs.VecDeque.{deque_len, deque_capacity};
ghost use Rattle.bus.specs.Outboxes.{room};

mod act;
mod calls;
mod group;
mod refusals;

use crate::built::Built;
use bus::{Frame, Outbox};
pub use group::smallest_group_refusal_first;
pub use refusals::smallest_refusal_first;
use station::Station;
use std::collections::VecDeque;

// One station and the frames that are pending, oldest first. Memory is taken once, when the house is made: the pending
// frames have 256 places, and the outbox has nine for each of 16 seats.
#[derive(Drop)]
pub struct House<S: Station> {
    built: Built<S>,
    pending: VecDeque<Frame>,
    outbox: Outbox,
    ghost few: { deque_len pending ≤ 256 },
    ghost places: { 256 ≤ deque_capacity pending },
    ghost outgoing: { 144 ≤ room outbox },
}
