// How a house lets its station act.
ghost use Rattle.std.specs.Prelude.{◌≡◌, ◌+◌, ◌≤◌, ◌++◌, length};
ghost use Rattle.std.specs.VecDeque.{deque_len, deque_capacity};
ghost use Rattle.station.specs.Seats.{places};
ghost use Rattle.house.specs.Answers.{counts};
ghost use Rattle.house.specs.Turns.{acted, copied_in};
ghost use Rattle.house.specs.Houses.{station_of, pending_of, TakesTurn};

use super::House;
use bus::Frame;
use station::{Event, Station};
use std::collections::VecDeque;

impl<S: Station> House<S> {
    // Lets the station act on the event, appends what it sends to the pending frames and writes it to the buffer's
    // front. Answers how many frames were sent and how many are pending. The caller has seen to the room.
    pub(super) fn act(&mut self, event: Event, buffer: &mut [Frame]) -> (usize, usize)
        requires seats { length (S.seats (station_of self.old)) ≤ 16 }
        requires buffer { places (S.seats (station_of self.old)) ≤ length buffer.old }
        requires pending { length (pending_of self.old) + places (S.seats (station_of self.old)) ≤ 256 }
        ensures { TakesTurn S.seats (acted event (S.seats (station_of self.old)) (pending_of self.old)) (counts result.0 result.1) self.new buffer.old buffer.new }
    {
        self.outbox.empty();
        self.built.act(event, &mut self.outbox);
        let sent = self.outbox.frames();
        append(sent, buffer, &mut self.pending);
        (sent.len(), self.pending.len())
    }
}

// Writes the frames to the buffer's front, and appends them to the pending ones, which have the places. They are few, so
// one pass over them is faster than copying them as a slice.
fn append(frames: &[Frame], buffer: &mut [Frame], pending: &mut VecDeque<Frame>)
    requires buffer { length frames.now ≤ length buffer.old }
    requires pending { deque_len pending.old + length frames.now ≤ deque_capacity pending.old }
    ensures buffer { buffer.new ≡ copied_in frames.now buffer.old }
    ensures pending { pending.new.items ≡ pending.old.items ++ frames.now }
    ensures capacity { deque_capacity pending.new ≡ deque_capacity pending.old }
{
    for (n, frame) in frames.iter().enumerate() {
        buffer[n] = *frame;
        pending.push_back_reserved(*frame);
    }
}
