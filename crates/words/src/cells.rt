// What the cells of a memory are for, and what bytes in them mean.
use crate::linked::Linked;
use crate::memory::{first_cell, is_past_end};
use crate::modules::{Modules, Named};
use crate::record::{Asked, LinkRecord};
use bus::Frame;
use std::fmt;
use terms::ModuleType;

// What a cell is part of.
#[derive(Clone, Copy, PartialEq, Eq)]
enum Slot {
    Pair {
        channel: usize,
        table: usize,
        pair: usize,
    },
    Record(usize),
    Plain,
}

impl Slot {
    fn of(kind: ModuleType, cell: usize) -> Self {
        match kind {
            ModuleType::Relay => Slot::in_relay(cell / 256 + 1, cell % 256),
            ModuleType::Buttons if (0x0100..0x01FF).contains(&cell) => {
                Slot::Record((cell - 0x0100) / 5)
            }
            ModuleType::Buttons | ModuleType::Panel => Slot::Plain,
        }
    }

    // Of a cell of a channel. The last 16 are for its name.
    fn in_relay(channel: usize, cell: usize) -> Self {
        if cell >= 240 {
            return Slot::Plain;
        }
        Slot::Pair {
            channel,
            table: cell / 30,
            pair: cell % 30 / 2,
        }
    }

    // How many cells of it stand before that one.
    fn before(self, cell: usize) -> usize {
        match self {
            Slot::Pair { .. } => cell % 2,
            Slot::Record(_) => cell % 256 % 5,
            Slot::Plain => 0,
        }
    }
}

// The cells that a frame writes, or that it tells the bytes of: a line for each pair, for each record and for plain cells,
// behind a margin. There is none where they are not of a known module.
#[derive(Clone, Copy)]
pub struct CellLines<'a> {
    pub modules: &'a Modules,
    pub frame: &'a Frame,
    pub margin: &'a str,
}

impl fmt::Display for CellLines<'_> {
    fn fmt<W: fmt::Write>(&self, f: &mut fmt::Formatter<W>) -> fmt::Result {
        let Some(cells) = Cells::of(self.modules, self.frame) else {
            return Ok(());
        };
        let margin = self.margin;
        for at in 0..4 {
            if let Some(part) = cells.part(at) {
                writeln!(f, "{margin}{part}")?;
            }
        }
        Ok(())
    }
}

// Cells of a module one after the other, with their bytes.
#[derive(Clone, Copy)]
struct Cells<'a> {
    module: Named<'a>,
    kind: ModuleType,
    first: usize,
    bytes: &'a [u8],
}

impl<'a> Cells<'a> {
    fn of(modules: &'a Modules, frame: &'a Frame) -> Option<Self> {
        let number = match (frame.bytes[0], frame.count) {
            (0xCA | 0xCC, 7) => 4,
            (0xFC | 0xFE, 4) => 1,
            _ => return None,
        };
        let module = Named {
            modules,
            address: frame.address,
        };
        let kind = module.kind()?;
        if !frame.is_well_formed() || is_past_end(kind, frame) {
            return None;
        }
        Some(Cells {
            module,
            kind,
            first: first_cell(frame),
            bytes: frame.bytes.get(3..3 + number)?,
        })
    }

    // The part that begins at one of the cells, counted from 0; none where the part before goes on.
    fn part(&self, at: usize) -> Option<Part<'a>> {
        let cell = self.first.checked_add(at)?;
        let slot = Slot::of(self.kind, cell);
        if at > 0 && Slot::of(self.kind, cell - 1) == slot {
            return None;
        }
        let rest = self.bytes.get(at..)?;
        let mut length = 0;
        for n in 0..rest.len() {
            if Slot::of(self.kind, cell.saturating_add(n)) != slot {
                break;
            }
            length = n + 1;
        }
        if length == 0 {
            return None;
        }
        Some(Part {
            module: self.module,
            slot,
            cell,
            bytes: rest.get(..length)?,
        })
    }
}

// Cells that belong to one pair, to one record or to neither, from one of them on.
#[derive(Clone, Copy)]
struct Part<'a> {
    module: Named<'a>,
    slot: Slot,
    cell: usize,
    bytes: &'a [u8],
}

impl Part<'_> {
    // The byte in one of the cells of the pair or record, if it is among these.
    fn byte(&self, at: usize) -> Option<u8> {
        let before = self.slot.before(self.cell);
        self.bytes.get(at.checked_sub(before)?).copied()
    }

    // What is linked, which pairs and records begin with.
    fn linked(&self) -> Linked<'_> {
        Linked {
            owner: self.module,
            address: self.byte(0),
            bits: self.byte(1),
        }
    }

    fn record(&self) -> LinkRecord<'_> {
        LinkRecord {
            linked: self.linked(),
            asked: Asked {
                action: self.byte(2),
                code: self.byte(3),
            },
            channels: self.byte(4),
        }
    }
}

impl fmt::Display for Part<'_> {
    fn fmt<W: fmt::Write>(&self, f: &mut fmt::Formatter<W>) -> fmt::Result {
        match self.slot {
            Slot::Pair {
                channel,
                table,
                pair,
            } => {
                let name = table_name(table);
                let linked = self.linked();
                write!(
                    f,
                    "channel {channel}, table {table} ({name}), pair {pair}: {linked}"
                )
            }
            Slot::Record(number) => {
                let record = self.record();
                write!(f, "link record {number}: {record}")
            }
            Slot::Plain => plain(self.cell, self.bytes.len(), f),
        }
    }
}

fn plain<W: fmt::Write>(cell: usize, length: usize, f: &mut fmt::Formatter<W>) -> fmt::Result {
    match length {
        1 => write!(f, "cell {cell:04X}: plain memory"),
        _ => write!(f, "{length} cells from {cell:04X} on: plain memory"),
    }
}

// What a pair in a relay's table asks for.
fn table_name(table: usize) -> &'static str {
    match table {
        0 => "clear",
        1 => "set",
        2 => "toggle",
        3 => "mode, skipped",
        4 => "toggle timer 1",
        5 => "toggle timer 2",
        6 => "start timer 1",
        _ => "start timer 2",
    }
}
