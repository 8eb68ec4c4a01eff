// What a button interface does.
ghost use Rattle.std.specs.Prelude.{◌≡◌, replicate};
ghost use Rattle.bus.specs.Outboxes.{Room, Sends};
ghost use Rattle.station.specs.Rules.{stored};
ghost use Rattle.timing.specs.Times.{midnight, Real};
ghost use Rattle.interface.specs.Interfaces.{commanded, clock_after, status_sent, type_sent, clock_sent, after_command, command_sent, after_broadcast, after_status, after_second, after_push, pushed_sent};
ghost use Rattle.interface.specs.Links.{named};
ghost use Rattle.interface.specs.States.{state_of, cells_of};

use crate::holds::Holds;
use crate::interface::Interface;
use crate::records::Records;
use crate::setup::{InterfaceSetup, Serial};
use crate::variant::Variant;
use bus::{Frame, Outbox};
use module::{Buttons, Lamps};
use station::Edge;
use timing::{Clock, Locking};

// What a command asks of the channels that it names; a time of 0 is skipped.
fn commanded(frame: &Frame) -> Option<Locking>
    ensures { result ≡ commanded frame.now }
{
    if frame.is_command(0x12, 5) {
        match frame.seconds() {
            0 => None,
            time => Some(Locking::Lock(time)),
        }
    } else if frame.is_command(0x13, 2) {
        Some(Locking::Unlock)
    } else {
        None
    }
}

// Answers a type request.
fn answer_type(variant: Variant, setup: InterfaceSetup, own: u8, frame: &Frame, out: &mut Outbox)
    requires { Room out.old 1 }
    ensures { Sends out.old out.new (type_sent variant setup own frame.now) }
{
    if frame.is_type_request() {
        let InterfaceSetup {
            serial: Serial { high, low },
            map,
            year,
            week,
        } = setup;
        let bytes = [0xFF, variant.code, high, low, map, year, week, 0];
        out.send(Frame::new(3, own, 7, bytes));
    }
}

// Answers a request for the time.
fn answer_clock(clock: &Clock, own: u8, frame: &Frame, out: &mut Outbox)
    requires { Room out.old 1 }
    ensures { Sends out.old out.new (clock_sent own clock.now frame.now) }
{
    if frame.is_command(0xD7, 1) {
        let [day, hour, minute, _] = clock.bytes();
        out.send(Frame::new(3, own, 4, [0xD8, day, hour, minute, 0, 0, 0, 0]));
    }
}

// Sets the clock, where the frame asks that of all modules.
fn set_clock(clock: &mut Clock, frame: &Frame)
    ensures time { clock.new ≡ clock_after clock.old frame.now }
    ensures real { Real clock.old → Real clock.new }
{
    if frame.address == 0 && frame.is_command(0xD8, 4) {
        clock.set(frame.bytes[1], frame.bytes[2], frame.bytes[3]);
    }
}

impl Interface {
    // Fresh cells, lamps out, no button pressed, no channel locked, and the clock at the start of the week.
    pub fn new() -> Self
        ensures cells { cells_of result ≡ replicate 1024 255 }
        ensures state { state_of result ≡ record { lamps = record { on = 0; slow = 0; fast = 0 }; pressed = 0; holds = replicate 8 0; clock = midnight } }
    {
        Interface {
            records: Records::new(),
            lamps: Lamps::new(),
            buttons: Buttons::new(),
            holds: Holds::new(),
            clock: Clock::new(),
        }
    }

    // Answers a status request.
    fn answer_status(&self, own: u8, frame: &Frame, out: &mut Outbox)
        requires { Room out.old 1 }
        ensures { Sends out.old out.new (status_sent own (state_of self.now) frame.now) }
    {
        if frame.is_command(0xFA, 2) {
            let pressed = self.buttons.pressed;
            let locked = self.holds.locked_bits();
            let bytes = [0xED, pressed, 0xFF, 0xFF, locked, 0, 0, 0];
            out.send(Frame::new(3, own, 7, bytes));
        }
    }

    // A frame with the own address. The variant, here and below, is that of the module which this is a part of.
    #[tactic(auto, using(bus::proofs::Outboxes::sends_both, bus::proofs::Outboxes::room_left, module::proofs::Sent::one_at_most, module::proofs::Sent::memory_sends_one))]
    pub fn command(
        &mut self,
        variant: Variant,
        setup: InterfaceSetup,
        own: u8,
        frame: &Frame,
        out: &mut Outbox,
    )
        requires { Room out.old 4 }
        ensures cells { cells_of self.new ≡ stored (cells_of self.old) frame.now }
        ensures state { state_of self.new ≡ after_command variant (state_of self.old) frame.now }
        ensures sent { Sends out.old out.new (command_sent variant setup own (cells_of self.old) (state_of self.old) frame.now) }
    {
        self.records.obey(own, frame, out);
        self.answer_status(own, frame, out);
        answer_type(variant, setup, own, frame, out);
        answer_clock(&self.clock, own, frame, out);
        self.lamps.obey(frame);
        self.holds
            .obey(commanded(frame), frame.bytes[1] & variant.channels);
        set_clock(&mut self.clock, frame);
    }

    // A frame with address 0.
    pub fn broadcast(&mut self, own: u8, frame: &Frame, out: &mut Outbox)
        requires { Room out.old 1 }
        ensures cells { cells_of self.new ≡ cells_of self.old }
        ensures state { state_of self.new ≡ after_broadcast (state_of self.old) frame.now }
        ensures sent { Sends out.old out.new (clock_sent own (state_of self.old).clock frame.now) }
    {
        answer_clock(&self.clock, own, frame, out);
        set_clock(&mut self.clock, frame);
    }

    // A button status from a linked address.
    pub fn status(&mut self, variant: Variant, frame: &Frame)
        ensures cells { cells_of self.new ≡ cells_of self.old }
        ensures state { state_of self.new ≡ after_status variant (cells_of self.old) (state_of self.old) frame.now }
    {
        self.records
            .obey_links(frame, variant.channels, &mut self.holds);
    }

    // A second that passes.
    pub fn second(&mut self)
        ensures cells { cells_of self.new ≡ cells_of self.old }
        ensures state { state_of self.new ≡ after_second (state_of self.old) }
    {
        self.holds.tick();
        self.clock.tick();
    }

    // An edge at a channel; a locked one ignores it.
    pub fn push(&mut self, variant: Variant, own: u8, channel: u8, edge: Edge, out: &mut Outbox)
        requires { Room out.old 1 }
        ensures cells { cells_of self.new ≡ cells_of self.old }
        ensures state { state_of self.new ≡ after_push variant (state_of self.old) channel edge }
        ensures sent { Sends out.old out.new (pushed_sent variant own (state_of self.old) channel edge) }
    {
        if !self.holds.is_locked(channel) {
            self.buttons.push(own, variant.buttons, channel, edge, out);
        }
    }

    // Whether a link record bears the address.
    pub fn names(&self, address: u8) -> bool
        ensures { result ≡ named (cells_of self.now) address }
    {
        self.records.names(address)
    }
}
