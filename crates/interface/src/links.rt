// The link records in the memory of a button interface.
ghost use Rattle.std.specs.Prelude.{◌≡◌, ◌&&◌, ◌==◌, true, replicate};
ghost use Rattle.bus.specs.Outboxes.{Room, Sends};
ghost use Rattle.station.specs.Rules.{stored};
ghost use Rattle.module.specs.Bits.{has_bit};
ghost use Rattle.module.specs.Cells.{memory_cells};
ghost use Rattle.module.specs.Memories.{memory_sent};
ghost use Rattle.module.specs.Numbers.{row_numbers};
ghost use Rattle.module.specs.Searches.{seatable};
ghost use Rattle.bus.specs.Frames.{byte};
ghost use Rattle.interface.specs.Shown.{all_held};
ghost use Rattle.interface.specs.Links.{link_at, bears, named, links_in_use, asked, by_record, by_records};

use crate::holds::Holds;
use crate::link::Link;
use crate::records::{CELLS, LINKS, Records};
use bus::{Frame, Outbox};
use module::{Memory, Rows, is_seatable, is_write};
use timing::{Locking, hold_of_code};

// What an action with a time code asks.
fn asked(action: u8, code: u8) -> Option<Locking>
    ensures { result ≡ asked action code }
{
    match action {
        3 => Some(Locking::Lock(hold_of_code(code)?)),
        4 => Some(Locking::Toggle(hold_of_code(code)?)),
        5 => Some(Locking::Unlock),
        _ => None,
    }
}

impl Link {
    // Record k of a memory.
    fn read(memory: &Memory<CELLS>, k: u8) -> Self
        ensures { result ≡ link_at (memory_cells memory.now) k }
    {
        let start = 0x0100 + 5 * usize::from(k);
        Link {
            address: memory.read(start),
            buttons: memory.read(start + 1),
            action: memory.read(start + 2),
            code: memory.read(start + 3),
            channels: memory.read(start + 4),
        }
    }

    // Whether it acts on a button status.
    fn matches(&self, frame: &Frame) -> bool
        ensures { result ≡ (self.now.address == frame.now.address && has_bit self.now.buttons (byte frame.now 1)) }
    {
        self.address == frame.address && self.buttons & frame.bytes[1] != 0
    }
}

// Lets record k act, if it matches.
fn obey_link(memory: &Memory<CELLS>, frame: &Frame, channels: u8, k: u8, holds: &mut Holds)
    ensures { all_held holds.new ≡ by_record channels (memory_cells memory.now) frame.now k (all_held holds.old) }
{
    let link = Link::read(memory, k);
    if link.matches(frame) {
        holds.obey(asked(link.action, link.code), link.channels & channels);
    }
}

// Lets every record act that matches, one after the other. The loop counts, since records are no slice: each is read
// from the memory by its number.
#[tactic(auto, using(crate::proofs::InTurn::in_turn_more, crate::proofs::InTurn::in_turn_none))]
fn obey_all(memory: &Memory<CELLS>, frame: &Frame, channels: u8, holds: &mut Holds)
    ensures { all_held holds.new ≡ by_records channels (memory_cells memory.now) frame.now (all_held holds.old) }
{
    for k in 0..51 {
        obey_link(memory, frame, channels, k, holds);
    }
}

// Lets those in use act, where the address is that of a seat.
fn obey_in_use(memory: &Memory<CELLS>, used: &[u8], frame: &Frame, channels: u8, holds: &mut Holds)
    requires used { used.now ≡ links_in_use (memory_cells memory.now) }
    requires seat { seatable frame.now.address ≡ true }
    ensures { all_held holds.new ≡ by_records channels (memory_cells memory.now) frame.now (all_held holds.old) }
{
    for k in used {
        obey_link(memory, frame, channels, *k, holds);
    }
}

// The records in use.
fn in_use(memory: &Memory<CELLS>) -> Rows<LINKS>
    ensures { row_numbers result ≡ links_in_use (memory_cells memory.now) }
{
    Rows::in_use(memory, 0x0100, 5)
}

// Makes the list anew. Not inlined: the place of the new one would be cleared on each command, also where none is made.
#[inline(never)]
fn remake(memory: &Memory<CELLS>, used: &mut Rows<LINKS>)
    ensures { row_numbers used.new ≡ links_in_use (memory_cells memory.now) }
{
    *used = in_use(memory);
}

impl Records {
    // Fresh cells: no record is in use.
    pub(crate) fn new() -> Self
        ensures { memory_cells result.memory ≡ replicate 1024 255 }
    {
        let memory = Memory::new();
        let used = in_use(&memory);
        Records { memory, used }
    }

    // Obeys a memory command; any other frame does nothing here.
    #[tactic(auto, using(module::proofs::Unwritten::stored_unwritten))]
    pub(crate) fn obey(&mut self, own: u8, frame: &Frame, out: &mut Outbox)
        requires { Room out.old 1 }
        ensures after { memory_cells self.new.memory ≡ stored (memory_cells self.old.memory) frame.now }
        ensures sent { Sends out.old out.new (memory_sent own (memory_cells self.old.memory) frame.now) }
    {
        self.memory.obey(own, frame, out);
        if is_write(frame) {
            remake(&self.memory, &mut self.used);
        }
    }

    // Whether record k bears the address.
    fn bears(&self, address: u8, k: u8) -> bool
        ensures { result ≡ bears (memory_cells self.now.memory) address k }
    {
        Link::read(&self.memory, k).address == address
    }

    // Whether some record bears the address, of all.
    fn names_of_all(&self, address: u8) -> bool
        ensures { result ≡ named (memory_cells self.now.memory) address }
    {
        (0..51).any(|k| self.bears(address, k))
    }

    // The same of those in use, where the address is that of a seat.
    fn names_in_use(&self, address: u8) -> bool
        requires { seatable address ≡ true }
        ensures { result ≡ named (memory_cells self.now.memory) address }
    {
        self.used.numbers().iter().any(|k| self.bears(address, *k))
    }

    // Whether some record bears the address.
    pub(crate) fn names(&self, address: u8) -> bool
        ensures { result ≡ named (memory_cells self.now.memory) address }
    {
        if is_seatable(address) {
            self.names_in_use(address)
        } else {
            self.names_of_all(address)
        }
    }

    // Lets every record act that matches, one after the other: none, where no button was just pressed.
    #[tactic(auto, using(crate::proofs::InUse::unasked_idle))]
    pub(crate) fn obey_links(&self, frame: &Frame, channels: u8, holds: &mut Holds)
        ensures { all_held holds.new ≡ by_records channels (memory_cells self.now.memory) frame.now (all_held holds.old) }
    {
        if frame.bytes[1] == 0 {
            return;
        }
        if is_seatable(frame.address) {
            obey_in_use(&self.memory, self.used.numbers(), frame, channels, holds);
        } else {
            obey_all(&self.memory, frame, channels, holds);
        }
    }
}
