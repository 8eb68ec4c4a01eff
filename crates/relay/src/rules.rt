// What a relay does.
ghost use Rattle.std.specs.Prelude.{◌≡◌, replicate, refl};
ghost use Rattle.bus.specs.Outboxes.{Room, Sends};
ghost use Rattle.module.specs.Cells.{memory_cells};
ghost use Rattle.relay.specs.Relays.{state_of, named_channels, start_action, commanded, carried, carried_out, answer, pairs, by_pair, by_pairs, pair_bits, all_bits, all_ticked, design, content};
ghost use Rattle.relay.specs.Channels.{each, some};
ghost use Rattle.relay.specs.Contacts.{is_running};
ghost use Rattle.relay.specs.Reports.{made, report};
ghost use Rattle.relay.specs.Shown.{shown, all_shown};
ghost use Rattle.relay.specs.Orderly.{relay_orderly};
ghost use Rattle.std.proofs.Common.{rules};

use crate::action::Action;
use crate::channel::Channel;
use crate::pairs::{CELLS, Pairs};
use crate::per_channel::{BITS, PerChannel};
use crate::query::Query;
use crate::relay::{Relay, RelaySetup};
use crate::reports::send_lamps;
use crate::tables::pair_cell;
use crate::timers::Timers;
use bus::{Frame, Outbox};
use module::{Module, ModuleKind};
use station::Edge;

// Which channels a command names.
fn named_channels(frame: &Frame) -> PerChannel<bool>
    ensures { result ≡ named_channels frame.now }
{
    let bits = frame.bytes[1];
    BITS.map(|bit| bits & bit != 0)
}

// What a time to start for asks: 0 nothing, 0xFFFFFF to close for good.
fn start_action(time: u32) -> Option<Action>
    ensures { result ≡ start_action time }
{
    match time {
        0 => None,
        0xFFFFFF => Some(Action::Set),
        _ => Some(Action::Start(time)),
    }
}

// The action that a command asks for.
fn commanded(frame: &Frame) -> Option<Action>
    ensures { result ≡ commanded frame.now }
{
    if frame.is_command(0x01, 2) {
        Some(Action::Clear)
    } else if frame.is_command(0x02, 2) {
        Some(Action::Set)
    } else if frame.is_command(0x03, 5) {
        start_action(frame.seconds())
    } else {
        None
    }
}

impl Channel {
    // The channel after an action, if there is one and it is wanted here. What this and the next share is `obey`.
    fn carried(mut self, action: Option<Action>, wanted: bool) -> Self
        ensures { shown result ≡ carried action wanted (shown self) }
    {
        if let Some(action) = action
            && wanted
        {
            self.obey(action);
        }
        self
    }

    // The channel after a pair of it, if there is one, with those timers.
    fn by_pair(mut self, timers: Timers, pair: Option<u8>) -> Self
        ensures { shown result ≡ by_pair timers pair (shown self) }
    {
        if let Some(p) = pair {
            self.obey(timers.action(p));
        }
        self
    }
}

impl PerChannel<Channel> {
    // Carries out an action where it is named.
    fn carry_out(&mut self, action: Option<Action>, named: PerChannel<bool>)
        ensures { all_shown self.new ≡ carried_out action named (all_shown self.old) }
    {
        *self = self
            .zip(named)
            .map(|(channel, wanted)| channel.carried(action, wanted));
    }

    // Answers a status request, or tells what a command changed.
    fn answer(&self, own: u8, frame: &Frame, was: PerChannel<bool>, out: &mut Outbox)
        requires { Room out.old 5 }
        ensures { Sends out.old out.new (answer own frame.now was (all_shown self.now)) }
    {
        if frame.is_command(0xFA, 2) {
            self.tell(own, named_channels(frame), out);
        } else {
            self.report(own, was, out);
        }
    }

    // Obeys a command, and tells its answer; what is no command for channels does nothing here, as most frames.
    fn command(&mut self, own: u8, frame: &Frame, out: &mut Outbox)
        requires { Room out.old 5 }
        ensures after { all_shown self.new ≡ carried_out (commanded frame.now) (named_channels frame.now) (all_shown self.old) }
        ensures sent { Sends out.old out.new (answer own frame.now (made (all_shown self.old)) (carried_out (commanded frame.now) (named_channels frame.now) (all_shown self.old))) }
    {
        let action = commanded(frame);
        if action.is_none() && !frame.is_command(0xFA, 2) {
            return;
        }
        let was = self.made();
        self.carry_out(action, named_channels(frame));
        self.answer(own, frame, was, out);
    }

    // Each channel obeys its pair.
    fn obey_pairs(&mut self, timers: PerChannel<Timers>, pairs: PerChannel<Option<u8>>)
        ensures { all_shown self.new ≡ by_pairs timers pairs (all_shown self.old) }
    {
        *self = self
            .zip(timers.zip(pairs))
            .map(|(channel, (timers, pair))| channel.by_pair(timers, pair));
    }

    // The state bytes of the record; sixteen names, also with an array.
    fn bytes(&self) -> [u8; 16]
        ensures { result ≡ state_of (all_shown self.now) }
    {
        let [a0, a1, a2, a3] = self.one.bytes();
        let [b0, b1, b2, b3] = self.two.bytes();
        let [c0, c1, c2, c3] = self.three.bytes();
        let [d0, d1, d2, d3] = self.four.bytes();
        [
            a0, a1, a2, a3, b0, b1, b2, b3, c0, c1, c2, c3, d0, d1, d2, d3,
        ]
    }

    // A second passes.
    fn tick(&mut self)
        ensures { all_shown self.new ≡ all_ticked (all_shown self.old) }
    {
        *self = self.map(|mut channel| {
            channel.tick();
            channel
        });
    }

    // Whether some channel's time runs.
    fn is_any_running(&self) -> bool
        ensures { result ≡ some (each is_running (all_shown self.now)) }
    {
        self.map(|channel| channel.is_running()).any()
    }

    // A second passes, and what it changes is told: nothing, where no time runs.
    #[tactic(auto, using(bus::proofs::Outboxes::sends_none, crate::proofs::Unchanged::not_ticked, crate::proofs::Unchanged::not_ticked_unreported))]
    fn second(&mut self, own: u8, out: &mut Outbox)
        requires { Room out.old 5 }
        ensures after { all_shown self.new ≡ all_ticked (all_shown self.old) }
        ensures sent { Sends out.old out.new (report own (made (all_shown self.old)) (all_ticked (all_shown self.old))) }
    {
        if self.is_any_running() {
            let was = self.made();
            self.tick();
            self.report(own, was, out);
        }
    }
}

impl Relay {
    // The pair that each channel obeys on a button status.
    fn pairs(&self, frame: &Frame) -> PerChannel<Option<u8>>
        ensures { result ≡ pairs (memory_cells self.now.pairs.memory) frame.now }
    {
        let query = Query {
            address: frame.address,
            buttons: Some(frame.bytes[1]),
        };
        self.pairs.first_pairs(query)
    }

    // The button bits of a pair of channel c.
    fn bits(&self, c: u8, pair: Option<u8>) -> Option<u8>
        ensures { result ≡ pair_bits (memory_cells self.now.pairs.memory) c pair }
    {
        pair.map(|p| self.pairs.memory.read(pair_cell(c, p) + 1))
    }

    // The button bits of each channel's pair.
    fn all_bits(&self, pairs: PerChannel<Option<u8>>) -> PerChannel<Option<u8>>
        ensures { result ≡ all_bits (memory_cells self.now.pairs.memory) pairs }
    {
        PerChannel::from_fn(|c| c)
            .zip(pairs)
            .map(|(c, pair)| self.bits(c, pair))
    }
}

#[tactic(auto, using(crate::proofs::Decoded::decoded_content))]
impl Module for Relay {
    ghost design = { λ p. design p.setup };

    ghost content = { content };

    ghost orderly = { λ m. relay_orderly m.setup };

    ghost sized = { Prim.search rules };

    fn command(&mut self, own: u8, frame: &Frame, out: &mut Outbox) {
        self.pairs.obey(own, frame, out);
        self.channels.command(own, frame, out);
    }

    fn broadcast(&mut self, _own: u8, _frame: &Frame, _out: &mut Outbox) {}

    fn status(&mut self, own: u8, frame: &Frame, out: &mut Outbox) {
        if frame.bytes[1] == 0 {
            // no button was just pressed
            return;
        }
        let pairs = self.pairs(frame);
        let was = self.channels.made();
        self.channels.obey_pairs(self.setup.timers, pairs);
        self.channels.report(own, was, out);
        send_lamps(
            frame.address,
            was,
            self.channels.made(),
            self.all_bits(pairs),
            out,
        );
    }

    fn second(&mut self, own: u8, out: &mut Outbox) {
        self.channels.second(own, out);
    }

    fn push(&mut self, _own: u8, _channel: u8, _edge: Edge, _out: &mut Outbox) {}

    fn names(&self, _own: u8, address: u8) -> bool {
        self.pairs.names(address)
    }

    fn byte(&self, place: usize) -> Option<u8> {
        self.pairs.memory.byte(&self.channels.bytes(), place)
    }
}

impl ModuleKind for Relay {
    type Setup = RelaySetup;

    ghost MEMORY = { 1024 };

    const MEMORY: usize = CELLS;

    ghost BUTTONS = { 0 };

    const BUTTONS: u8 = 0;

    ghost design_with = { design };

    ghost fresh = { replicate 16 0 };

    ghost sizes = { λ _. (refl, refl) };

    // Each channel is open.
    fn new(setup: RelaySetup) -> Self {
        Relay {
            setup,
            pairs: Pairs::new(),
            channels: PerChannel::from_fn(|_| Channel::Open),
        }
    }
}
