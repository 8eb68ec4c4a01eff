// A rail: two stations as one.
ghost use Rattle.std.specs.Prelude.{◌≡◌, ◌+◌, ◌<◌, ◌≤◌, min, ◌++◌};
ghost use Rattle.std.specs.Fn.{FnOnceReturnsAt};
ghost use Rattle.bus.specs.Outboxes.{Room, Sends};
ghost use Rattle.station.specs.Seats.{places, after_all, sent_all, count_at};
ghost use Rattle.station.specs.SeatsLemmas.{stands-append};

use crate::addresses::Addresses;
use crate::event::Event;
use crate::station::Station;
use bus::{Frame, Outbox};

// The seats of the first station stand before those of the second.
#[derive(Drop)]
pub struct Rail<A, B> {
    pub first: A,
    pub second: B,
}

// Lets one station act after the other, as if they were one.
#[tactic(auto, using(bus::proofs::Outboxes::sends_both, bus::proofs::Outboxes::room_left, crate::specs::SeatsLemmas::few_sent))]
fn act_in_turn<A: Station, B: Station>(
    first: &mut A,
    second: &mut B,
    event: Event,
    out: &mut Outbox,
)
    requires { Room out.old (places (A.Station.seats first.old ++ B.Station.seats second.old)) }
    ensures after { A.Station.seats first.new ++ B.Station.seats second.new ≡ after_all event (A.Station.seats first.old ++ B.Station.seats second.old) }
    ensures sent { Sends out.old out.new (sent_all event (A.Station.seats first.old ++ B.Station.seats second.old)) }
{
    first.act(event, out);
    second.act(event, out);
}

// Two counts as one, where 2 stands for more.
fn two_for_more(first: usize, second: usize) -> usize
    requires { (first ≤ 2) × (second ≤ 2) }
    ensures { result ≡ min 2 (first + second) }
{
    (first + second).min(2)
}

impl<A: Station, B: Station> Rail<A, B> {
    // Asks the station in which the first seat at the address stands; where there is none, the second one.
    fn ask<T, F: FnOnce(&A) -> T + Drop, G: FnOnce(&B) -> T + Drop>(
        &self,
        address: u8,
        first: F,
        second: G,
    ) -> T
        requires first { F.IsAlwaysCallable first }
        requires second { G.IsAlwaysCallable second }
        ensures first { 0 < count_at address (A.Station.seats self.now.first) → FnOnceReturnsAt F.FnOnce first self.now.first result }
        ensures second { count_at address (A.Station.seats self.now.first) ≡ 0 → FnOnceReturnsAt G.FnOnce second self.now.second result }
    {
        if self.first.standing(address) > 0 {
            first(&self.first)
        } else {
            second(&self.second)
        }
    }
}

#[tactic(auto, using(crate::proofs::Joined::joined))]
impl<A: Station, B: Station> Station for Rail<A, B> {
    ghost seats = { λ r. A.Station.seats r.first ++ B.Station.seats r.second };

    ghost stands = { λ s. stands-append _ _ (A.Station.stands s.first) (B.Station.stands s.second) };

    fn act(&mut self, event: Event, out: &mut Outbox) {
        act_in_turn(&mut self.first, &mut self.second, event, out);
    }

    fn hears(&self, frame: &Frame) -> bool {
        self.first.hears(frame) || self.second.hears(frame)
    }

    fn list_addresses(&self, list: &mut Addresses) {
        self.first.list_addresses(list);
        self.second.list_addresses(list);
    }

    fn standing(&self, address: u8) -> usize {
        two_for_more(self.first.standing(address), self.second.standing(address))
    }

    fn links(&self, address: u8, other: u8) -> bool {
        self.ask(
            address,
            |first| first.links(address, other),
            |second| second.links(address, other),
        )
    }

    fn buttons(&self, address: u8) -> u8 {
        self.ask(
            address,
            |first| first.buttons(address),
            |second| second.buttons(address),
        )
    }

    fn byte(&self, address: u8, place: usize) -> Option<u8> {
        self.ask(
            address,
            |first| first.byte(address, place),
            |second| second.byte(address, place),
        )
    }
}
