// The interface of a single module.
ghost use Rattle.std.specs.Prelude.{◌≡◌, ℕ, List, length, replicate};
ghost use Rattle.bus.specs.Outboxes.{Room, Sends};
ghost use Rattle.station.specs.Kinds.{Record, bytes};
ghost use Rattle.station.specs.Seats.{nth};
ghost use Rattle.module.specs.Designs.{Design, Orderly};

use bus::{Frame, Outbox};
use station::Edge;

// A module answers each way in which an event can reach it; `own` is the address of its seat. It and the outbox stay two
// parameters: of a struct that holds a `&mut`, each clause would have to name `.entry` and `.exit`. That the design stays is
// one clause of each method, and a word for it would be no shorter.
pub trait Module {
    // How its kind is designed.
    ghost design: { Self → Design };

    // What it remembers.
    ghost content: { Self → Record };

    // A frame with the own address.
    fn command(&mut self, own: u8, frame: &Frame, out: &mut Outbox)
        requires { Room out.old 9 }
        ensures design { design self.new ≡ design self.old }
        ensures after { content self.new ≡ ((design self.old).command own (content self.old) frame.now).after }
        ensures sent { Sends out.old out.new ((design self.old).command own (content self.old) frame.now).sent };

    // A frame with address 0, unless that is the own address.
    fn broadcast(&mut self, own: u8, frame: &Frame, out: &mut Outbox)
        requires { Room out.old 9 }
        ensures design { design self.new ≡ design self.old }
        ensures after { content self.new ≡ ((design self.old).broadcast own (content self.old) frame.now).after }
        ensures sent { Sends out.old out.new ((design self.old).broadcast own (content self.old) frame.now).sent };

    // A button status from a linked address.
    fn status(&mut self, own: u8, frame: &Frame, out: &mut Outbox)
        requires { Room out.old 9 }
        ensures design { design self.new ≡ design self.old }
        ensures after { content self.new ≡ ((design self.old).status own (content self.old) frame.now).after }
        ensures sent { Sends out.old out.new ((design self.old).status own (content self.old) frame.now).sent };

    // A second that passes.
    fn second(&mut self, own: u8, out: &mut Outbox)
        requires { Room out.old 9 }
        ensures design { design self.new ≡ design self.old }
        ensures after { content self.new ≡ ((design self.old).second own (content self.old)).after }
        ensures sent { Sends out.old out.new ((design self.old).second own (content self.old)).sent };

    // An edge at a channel, counted from 1.
    fn push(&mut self, own: u8, channel: u8, edge: Edge, out: &mut Outbox)
        requires { Room out.old 9 }
        ensures design { design self.new ≡ design self.old }
        ensures after { content self.new ≡ ((design self.old).push own (content self.old) channel edge).after }
        ensures sent { Sends out.old out.new ((design self.old).push own (content self.old) channel edge).sent };

    // Whether its record names an address as linked.
    fn names(&self, own: u8, address: u8) -> bool
        ensures { result ≡ (design self.now).names own (content self.now) address };

    // The byte at a place of its record.
    fn byte(&self, place: usize) -> Option<u8>
        ensures { result ≡ nth place (bytes (content self.now)) };

    ghost orderly: { (m : Self) → Orderly (design m) };

    ghost sized: { (m : Self) → length (content m).cells ≡ (design m).memory };
}

/// A kind of module: what all modules of the kind share, and the setup that a single one is made with.
pub trait ModuleKind: Module {
    /// What a single module is made with.
    type Setup;

    ghost MEMORY: { ℕ };

    /// How many cells the memory has, 1,024 at most.
    const MEMORY: usize;

    ghost BUTTONS: { ℕ };

    /// How many buttons there are; their channels count from 1.
    const BUTTONS: u8;

    // How a module with a setup is designed.
    ghost design_with: { Self.Setup → Design };

    // The state bytes of a new module.
    ghost fresh: { List ℕ };

    /// A new module: each cell holds 0xFF, and the state bytes are the fresh ones of the kind.
    fn new(setup: Self::Setup) -> Self
        ensures design { Self.design result ≡ design_with setup }
        ensures cells { (Self.content result).cells ≡ replicate MEMORY 255 }
        ensures state { (Self.content result).state ≡ fresh };

    // The constants are the sizes of the design.
    ghost sizes: { (m : Self) → ((Self.design m).memory ≡ MEMORY) × ((Self.design m).buttons ≡ BUTTONS) };
}
