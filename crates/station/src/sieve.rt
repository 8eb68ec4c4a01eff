// A sieve: a station that is not disturbed by what none of its seats hears.
ghost use Rattle.std.specs.Prelude.{◌≡◌};
ghost use Rattle.bus.specs.Outboxes.{Room, Sends};
ghost use Rattle.station.specs.Seats.{after_all, sent_all, places};
ghost use Rattle.station.specs.Sieves.{passes, Undisturbed};
ghost use Rattle.std.proofs.Common.{rules};

use crate::addresses::Addresses;
use crate::event::Event;
use crate::station::Station;
use bus::{Frame, Outbox};

// Frames that concern no seat below stop here. In all else it stands for the station below.
#[derive(Drop)]
pub struct Sieve<S> {
    pub below: S,
}

impl<S: Station> Sieve<S> {
    // Whether an event is handed down.
    fn passes(&self, event: &Event) -> bool
        ensures { result ≡ passes event.now (S.Station.seats self.now.below) }
    {
        match event {
            Event::Heard(frame) => self.below.hears(frame),
            Event::Second | Event::Pushed(_) => true,
        }
    }
}

impl<S: Station> Station for Sieve<S> {
    ghost seats = { λ s. S.Station.seats s.below };

    ghost stands = { Prim.search rules };

    #[tactic(auto, using(bus::proofs::Outboxes::sends_none, crate::specs::SeatsLemmas::stopped_same, crate::specs::SeatsLemmas::stopped_mute))]
    fn act(&mut self, event: Event, out: &mut Outbox)
        requires { Room out.old (places (S.Station.seats self.old.below)) }
        ensures after { S.Station.seats self.new.below ≡ after_all event (S.Station.seats self.old.below) }
        ensures sent { Sends out.old out.new (sent_all event (S.Station.seats self.old.below)) }
        ensures undisturbed { Undisturbed event (S.Station.seats self.old.below) self.old.below self.new.below }
    {
        if self.passes(&event) {
            self.below.act(event, out);
        }
    }

    fn hears(&self, frame: &Frame) -> bool {
        self.below.hears(frame)
    }

    fn list_addresses(&self, list: &mut Addresses) {
        self.below.list_addresses(list);
    }

    fn standing(&self, address: u8) -> usize {
        self.below.standing(address)
    }

    fn links(&self, address: u8, other: u8) -> bool {
        self.below.links(address, other)
    }

    fn buttons(&self, address: u8) -> u8 {
        self.below.buttons(address)
    }

    fn byte(&self, address: u8, place: usize) -> Option<u8> {
        self.below.byte(address, place)
    }
}
