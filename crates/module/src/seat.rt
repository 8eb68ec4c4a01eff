// A seat: a station of one module.
ghost use Rattle.std.specs.Prelude.{◌≡◌, ◌<◌, ◌&&◌, [], ◌∷◌};
ghost use Rattle.station.specs.Kinds.{linked, is_status, hears};
ghost use Rattle.module.specs.Designs.{designed};
ghost use Rattle.std.proofs.Common.{arith};
ghost use Rattle.module.specs.Orderly.{orderly_lawful};

use crate::module::{Module, ModuleKind};
use bus::{Frame, Outbox};
use station::{Addresses, Event, Station};

// A module at an address.
#[derive(Drop)]
pub struct Seat<M> {
    address: u8,
    module: M,
    ghost narrow: { address < 256 },
}

impl<M: Module> Seat<M> {
    pub fn new(address: u8, module: M) -> Self
        ensures address { result.address ≡ address }
        ensures content { result.«module» ≡ «module» }
    {
        Seat { address, module }
    }

    // Whether it links an address.
    fn links_to(&self, other: u8) -> bool
        ensures { result ≡ linked (M.Module.design self.now.module).names self.now.address (M.Module.content self.now.module) other }
    {
        other > 0 && other < 255 && other != self.address && self.module.names(self.address, other)
    }

    // Whether the frame is a button status from a linked address.
    fn is_linked_status(&self, frame: &Frame) -> bool
        ensures { result ≡ (is_status frame.now && linked (M.Module.design self.now.module).names self.now.address (M.Module.content self.now.module) frame.now.address) }
    {
        frame.is_command(0, 4) && self.links_to(frame.address)
    }
}

impl<M: ModuleKind> Station for Seat<M> {
    ghost seats = { λ s. record { kind = designed (M.Module.design s.module); address = s.address; content = M.Module.content s.module } ∷ [] };

    ghost stands = { λ s.
        let m = s.«module» in
        (omega arith, ((s.narrow, orderly_lawful (M.Module.design m) s.address (M.Module.content m) (M.Module.orderly m) (M.Module.sized m)), tt)) };

    fn act(&mut self, event: Event, out: &mut Outbox) {
        let own = self.address;
        match event {
            Event::Heard(frame) => {
                if frame.address == own {
                    self.module.command(own, &frame, out);
                } else if frame.address == 0 {
                    self.module.broadcast(own, &frame, out);
                } else if self.is_linked_status(&frame) {
                    self.module.status(own, &frame, out);
                }
            }
            Event::Second => self.module.second(own, out),
            Event::Pushed(push) => {
                if push.address == own {
                    self.module.push(own, push.channel, push.edge, out);
                }
            }
        }
    }

    fn hears(&self, frame: &Frame) -> bool {
        frame.address == self.address || frame.address == 0 || self.is_linked_status(frame)
    }

    fn list_addresses(&self, list: &mut Addresses) {
        list.add(self.address);
    }

    fn standing(&self, address: u8) -> usize {
        usize::from(address == self.address)
    }

    fn links(&self, address: u8, other: u8) -> bool {
        address == self.address && self.links_to(other)
    }

    // A line each for this and the next: what they answer elsewhere differs.
    fn buttons(&self, address: u8) -> u8 {
        if address == self.address {
            M::BUTTONS
        } else {
            0
        }
    }

    fn byte(&self, address: u8, place: usize) -> Option<u8> {
        if address == self.address {
            self.module.byte(place)
        } else {
            None
        }
    }
}
