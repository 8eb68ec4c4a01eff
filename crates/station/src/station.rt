// The interface of every station.
ghost use Rattle.std.specs.Prelude.{◌≡◌, List};
ghost use Rattle.bus.specs.Outboxes.{Room, Sends};
ghost use Rattle.station.specs.Kinds.{Seat};
ghost use Rattle.station.specs.Listed.{listed};
ghost use Rattle.station.specs.Rules.{Stands};
ghost use Rattle.station.specs.Seats.{after_all, sent_all, some_hears, standing, first_links, first_buttons, first_byte, places};

use crate::addresses::Addresses;
use crate::event::Event;
use bus::{Frame, Outbox};

pub trait Station {
    // Its meaning: the seats, in order.
    ghost seats: { Self → List Seat };

    // Lets each seat act on the event, in seat order.
    fn act(&mut self, event: Event, out: &mut Outbox)
        requires { Room out.old (places (seats self.old)) }
        ensures after { seats self.new ≡ after_all event (seats self.old) }
        ensures sent { Sends out.old out.new (sent_all event (seats self.old)) };

    // Whether some seat hears the frame.
    fn hears(&self, frame: &Frame) -> bool
        ensures { result ≡ some_hears frame.now (seats self.now) };

    // Adds the address of every seat to a list, in order.
    fn list_addresses(&self, list: &mut Addresses)
        ensures { list.new ≡ listed (seats self.now) list.old };

    // How many seats stand at an address: 0, 1, or 2 for more. A number and no enum, since a rail adds two of them.
    fn standing(&self, address: u8) -> usize
        ensures { result ≡ standing address (seats self.now) };

    // Whether the first seat at an address links another address.
    fn links(&self, address: u8, other: u8) -> bool
        ensures { result ≡ first_links address other (seats self.now) };

    // How many buttons the first seat at an address has; 0 where there is none.
    fn buttons(&self, address: u8) -> u8
        ensures { result ≡ first_buttons address (seats self.now) };

    // The byte at a place of the record of the first seat at an address.
    fn byte(&self, address: u8, place: usize) -> Option<u8>
        ensures { result ≡ first_byte address place (seats self.now) };

    // There is a seat, and each keeps the rules.
    ghost stands: { (s : Self) → Stands (seats s) };
}
