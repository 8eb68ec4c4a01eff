// The buttons of a module.
ghost use Rattle.std.specs.Prelude.{◌≡◌, ◌<◌, ◌≤◌, min};
ghost use Rattle.bus.specs.Outboxes.{Room, Sends};
ghost use Rattle.bus.specs.Frames.{message};
ghost use Rattle.module.specs.Pushes.{bit, possible, after_edge, status_bytes, pressed_after, push_sent};

use bus::{Frame, Outbox};
use station::Edge;

// A bit for each button, set while it is pressed.
#[derive(Clone, Copy)]
pub struct Buttons {
    pub pressed: u8,
}

// The bit of a channel, counted from 1.
fn bit(channel: u8) -> u8
    requires { (0 < channel) × (channel ≤ 8) }
    ensures { result ≡ bit channel }
{
    1u8 << (channel - 1)
}

// The frame that tells of an edge at a bit.
fn status(own: u8, edge: Edge, bit: u8) -> Frame
    ensures { result ≡ message 0 own (status_bytes edge bit) }
{
    let bytes = match edge {
        Edge::Press => [0, bit, 0, 0, 0, 0, 0, 0],
        Edge::Release => [0, 0, bit, 0, 0, 0, 0, 0],
        Edge::LongPress => [0, 0, 0, bit, 0, 0, 0, 0],
    };
    Frame::new(0, own, 4, bytes)
}

// Whether a button can show the edge.
fn is_possible(edge: Edge, is_down: bool) -> bool
    ensures { result ≡ possible edge is_down }
{
    match edge {
        Edge::Press => !is_down,
        Edge::Release | Edge::LongPress => is_down,
    }
}

impl Buttons {
    // None pressed.
    pub fn new() -> Self
        ensures { result ≡ record { pressed = 0 } }
    {
        Buttons { pressed: 0 }
    }

    // The pressed bits after an edge.
    fn edge(&mut self, edge: Edge, bit: u8)
        ensures { self.new.pressed ≡ after_edge edge self.old.pressed bit }
    {
        match edge {
            Edge::Press => self.pressed |= bit,
            Edge::Release => self.pressed &= !bit,
            Edge::LongPress => {}
        }
    }

    // An edge at a channel of a module with that many buttons; one that cannot be does nothing.
    pub fn push(&mut self, own: u8, buttons: u8, channel: u8, edge: Edge, out: &mut Outbox)
        requires { Room out.old 1 }
        ensures after { self.new.pressed ≡ pressed_after buttons self.old.pressed channel edge }
        ensures sent { Sends out.old out.new (push_sent own buttons self.old.pressed channel edge) }
    {
        if channel == 0 || channel > buttons.min(8) {
            return;
        }
        let bit = bit(channel);
        if is_possible(edge, self.pressed & bit != 0) {
            self.edge(edge, bit);
            out.send(status(own, edge, bit));
        }
    }
}
