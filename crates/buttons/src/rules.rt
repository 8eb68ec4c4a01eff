// What a button interface with eight buttons does.
ghost use Rattle.std.specs.Prelude.{replicate, refl};
ghost use Rattle.buttons.specs.Buttons.{variant, design, content};
ghost use Rattle.interface.proofs.Orderly.{interface_orderly};
ghost use Rattle.std.proofs.Common.{rules};

use crate::buttons::ButtonInterface;
use bus::{Frame, Outbox};
use interface::{CELLS, Interface, InterfaceSetup, Variant};
use module::{Module, ModuleKind};
use station::Edge;

// Every channel bit counts.
const VARIANT: Variant = Variant {
    code: 0x16,
    buttons: ButtonInterface::BUTTONS,
    channels: 0xFF,
};

#[tactic(auto, using(interface::proofs::Decoded::interface_told))]
impl Module for ButtonInterface {
    ghost design = { λ b. design b.setup };

    ghost content = { content };

    ghost orderly = { λ b. interface_orderly variant b.setup };

    ghost sized = { Prim.search rules };

    fn command(&mut self, own: u8, frame: &Frame, out: &mut Outbox) {
        self.interface.command(VARIANT, self.setup, own, frame, out);
    }

    fn broadcast(&mut self, own: u8, frame: &Frame, out: &mut Outbox) {
        self.interface.broadcast(own, frame, out);
    }

    fn status(&mut self, _own: u8, frame: &Frame, _out: &mut Outbox) {
        self.interface.status(VARIANT, frame);
    }

    fn second(&mut self, _own: u8, _out: &mut Outbox) {
        self.interface.second();
    }

    fn push(&mut self, own: u8, channel: u8, edge: Edge, out: &mut Outbox) {
        self.interface.push(VARIANT, own, channel, edge, out);
    }

    fn names(&self, _own: u8, address: u8) -> bool {
        self.interface.names(address)
    }

    fn byte(&self, place: usize) -> Option<u8> {
        self.interface.byte(place)
    }
}

impl ModuleKind for ButtonInterface {
    type Setup = InterfaceSetup;

    ghost MEMORY = { 1024 };

    const MEMORY: usize = CELLS;

    ghost BUTTONS = { 8 };

    const BUTTONS: u8 = 8;

    ghost design_with = { design };

    ghost fresh = { replicate 32 0 };

    ghost sizes = { λ _. (refl, refl) };

    // Lamps out, no button pressed, no channel locked, and the clock at Monday 00:00.
    fn new(setup: InterfaceSetup) -> Self {
        ButtonInterface {
            setup,
            interface: Interface::new(),
        }
    }
}
