// What a chime does.
ghost use Rattle.std.specs.Prelude.{◌≡◌, ◌≤◌, ◌&&◌, [], ◌∷◌, length, replicate};
ghost use Rattle.std.proofs.Common.{arith};
ghost use Rattle.bus.specs.Outboxes.{Room, Sends};
ghost use Rattle.station.specs.Kinds.{bytes, linked, is_status};
ghost use Rattle.station.specs.Seats.{nth};
ghost use Rattle.chime.specs.Commands.{put_in, obeyed};
ghost use Rattle.chime.specs.Chimes.{names, stroke, rings, content, seat, new_seat};
ghost use Rattle.chime.specs.Lawful.{Kept, chime_lawful};

use crate::chime::{CELLS, Chime, MOST_STROKES};
use crate::command::Command;
use bus::{Frame, Outbox};
use station::{Addresses, Edge, Event, Push, Station};

// Puts bytes in from a cell on, if every one has a cell.
fn put_in(cells: &mut [u8; CELLS], cell: u16, bytes: &[u8])
    requires { length bytes.now ≤ 4 }
    ensures { cells.new ≡ put_in cells.old cell bytes.now }
{
    let start = usize::from(cell);
    let end = start + bytes.len();
    if end <= CELLS {
        cells[start..end].copy_from_slice(bytes);
    }
}

// Whether it is a push that rings the chime.
fn rings(push: &Push) -> bool
    ensures { result ≡ rings push.now }
{
    push.channel == 1 && matches!(push.edge, Edge::Press)
}

impl Chime {
    // A new chime follows no address.
    pub fn new(address: u8, tone: u8) -> Self
        ensures { ⟦<Chime as Station>⟧.seats result ≡ new_seat tone address ∷ [] }
    {
        Chime {
            address,
            tone,
            cells: [0xFF; CELLS],
            link: 0,
            strokes: 0,
        }
    }

    // A command changes the memory, or what it follows.
    #[tactic(auto, using(crate::specs::Lawful::length_put_in))]
    fn obey(&mut self, command: Command)
        ensures address { self.new.address ≡ self.old.address }
        ensures tone { self.new.tone ≡ self.old.tone }
        ensures content { content self.new ≡ obeyed (content self.old) command }
    {
        match command {
            Command::Write(cell, byte) => put_in(&mut self.cells, cell, &[byte]),
            Command::WriteBlock(cell, bytes) => put_in(&mut self.cells, cell, &bytes),
            Command::Follow(link, strokes) => {
                if strokes <= MOST_STROKES {
                    self.link = link;
                    self.strokes = strokes;
                }
            }
            Command::Other => {}
        }
    }

    // A frame with nine bytes, of which there are only eight.
    fn stroke(&self) -> Frame
        ensures { result ≡ stroke self.now.tone self.now.address }
    {
        Frame::new(7, self.address, 9, [0x51, self.tone, 0, 0, 0, 0, 0, 0])
    }

    // Strikes so many times.
    fn strike(&self, times: u8, out: &mut Outbox)
        requires { Room out.old times }
        ensures { Sends out.old out.new (replicate times (stroke self.now.tone self.now.address)) }
    {
        for _ in 0..times {
            out.send(self.stroke());
        }
    }

    // Whether it links an address.
    fn links_to(&self, other: u8) -> bool
        ensures { result ≡ linked names self.now.address (content self.now) other }
    {
        other > 0 && other < 255 && other != self.address && other == self.link
    }

    // Whether the frame is a button status from the address that it follows.
    fn is_linked_status(&self, frame: &Frame) -> bool
        ensures { result ≡ (is_status frame.now && linked names self.now.address (content self.now) frame.now.address) }
    {
        frame.is_command(0, 4) && self.links_to(frame.address)
    }

    // The byte at a place of its record: the cells, then the link and the strokes.
    fn byte_at(&self, place: usize) -> Option<u8>
        ensures { result ≡ nth place (bytes (content self.now)) }
    {
        self.cells
            .iter()
            .chain(&[self.link, self.strokes])
            .nth(place)
            .copied()
    }
}

impl Station for Chime {
    ghost seats = { λ c. seat c ∷ [] };

    ghost stands = { λ c. (omega arith, ((c.narrow, chime_lawful c.tone c.address (content c) (record { full = c.full; few = c.few })), tt)) };

    fn act(&mut self, event: Event, out: &mut Outbox) {
        match event {
            Event::Heard(frame) => {
                if frame.address == self.address {
                    self.obey(Command::parse(&frame));
                } else if self.is_linked_status(&frame) {
                    self.strike(self.strokes, out);
                }
            }
            Event::Second => {}
            Event::Pushed(push) => {
                if push.address == self.address && rings(&push) {
                    self.strike(1, out);
                }
            }
        }
    }

    fn hears(&self, frame: &Frame) -> bool {
        frame.address == self.address || frame.address == 0 || self.is_linked_status(frame)
    }

    fn list_addresses(&self, list: &mut Addresses) {
        list.add(self.address);
    }

    fn standing(&self, address: u8) -> usize {
        usize::from(address == self.address)
    }

    fn links(&self, address: u8, other: u8) -> bool {
        address == self.address && self.links_to(other)
    }

    fn buttons(&self, address: u8) -> u8 {
        u8::from(address == self.address)
    }

    fn byte(&self, address: u8, place: usize) -> Option<u8> {
        if address == self.address {
            self.byte_at(place)
        } else {
            None
        }
    }
}
