// A memory of numbered cells, and the commands that read and write it.
ghost use Rattle.std.specs.Prelude.{◌≡◌, ◌+◌, ◌^◌, ◌<◌, ◌≤◌, [], ◌∷◌, ◌++◌, length, replicate, nat_le, slice_index};
ghost use Rattle.bus.specs.Frames.{byte};
ghost use Rattle.bus.specs.Outboxes.{Room, Sends};
ghost use Rattle.station.specs.Rules.{cell as cell_number, put, stored};
ghost use Rattle.station.specs.Seats.{nth};
ghost use Rattle.module.specs.Memories.{writes, cell_frame, block_frame, memory_sent};

use bus::{Frame, Outbox};

// Has N cells; a fresh cell is 0xFF. A model would hide from callers how many there are, which their laws need.
#[derive(Drop)]
pub struct Memory<const N: usize> {
    cells: [u8; N],
    ghost full: { length cells ≡ N },
}

// The cell that a memory command names, high byte first.
fn cell_of(frame: &Frame) -> usize
    ensures value { result ≡ cell_number frame.now }
    ensures bound { result < 65536 }
{
    usize::from(u16::from_be_bytes([frame.bytes[1], frame.bytes[2]]))
}

// Whether the frame is a command that writes cells.
pub fn is_write(frame: &Frame) -> bool
    ensures { result ≡ writes frame.now }
{
    frame.is_command(0xFC, 4) || frame.is_command(0xCA, 7)
}

// The byte at a place, if there is one.
pub fn byte_at(bytes: &[u8], place: usize) -> Option<u8>
    ensures { result ≡ nth place bytes.now }
{
    bytes.get(place).copied()
}

impl<const N: usize> Memory<N> {
    pub fn new() -> Self
        ensures { result.cells ≡ replicate N 255 }
    {
        Memory { cells: [0xFF; N] }
    }

    // Whether so many cells from one on lie in the memory.
    fn has(&self, cell: usize, count: usize) -> bool
        requires { cell + count < 2 ^ 64 }
        ensures { result ≡ nat_le (cell + count) N }
    {
        cell + count <= N
    }

    // The byte in a cell; 0 past the last one.
    pub fn read(&self, cell: usize) -> u8
        ensures { result ≡ slice_index self.now.cells cell }
    {
        self.cells.get(cell).copied().unwrap_or(0)
    }

    // The byte at a place of a record: the cells, then the state bytes.
    pub fn byte(&self, state: &[u8], place: usize) -> Option<u8>
        ensures { result ≡ nth place (self.now.cells ++ state.now) }
    {
        match self.cells.get(place) {
            Some(byte) => Some(*byte),
            None => byte_at(state, place - N),
        }
    }

    // Puts the four bytes of a block write in, from a cell on.
    fn write_block(&mut self, cell: usize, frame: &Frame)
        requires { cell + 4 ≤ N }
        ensures { self.new.cells ≡ put self.old.cells cell (byte frame.now 3 ∷ byte frame.now 4 ∷ byte frame.now 5 ∷ byte frame.now 6 ∷ []) }
    {
        let [_, _, _, a, b, c, d, _] = frame.bytes;
        let cells = &mut self.cells[..];
        cells[cell..cell + 4].copy_from_slice(&[a, b, c, d]);
    }

    // One cell as a frame; cells stand among other bytes here, so they are named one by one.
    fn cell_frame(&self, own: u8, frame: &Frame, cell: usize) -> Frame
        requires { (cell < N) × (cell ≡ cell_number frame.now) }
        ensures { result ≡ cell_frame own frame.now self.now.cells }
    {
        Frame::new(
            3,
            own,
            4,
            [
                0xFE,
                frame.bytes[1],
                frame.bytes[2],
                self.cells[cell],
                0,
                0,
                0,
                0,
            ],
        )
    }

    // Four cells as a frame.
    fn block_frame(&self, own: u8, frame: &Frame, cell: usize) -> Frame
        requires { (cell + 4 ≤ N) × (cell ≡ cell_number frame.now) }
        ensures { result ≡ block_frame own frame.now self.now.cells }
    {
        Frame::new(
            3,
            own,
            7,
            [
                0xCC,
                frame.bytes[1],
                frame.bytes[2],
                self.cells[cell],
                self.cells[cell + 1],
                self.cells[cell + 2],
                self.cells[cell + 3],
                0,
            ],
        )
    }

    // Obeys a memory command; any other frame does nothing here.
    pub fn obey(&mut self, own: u8, frame: &Frame, out: &mut Outbox)
        requires { Room out.old 1 }
        ensures after { self.new.cells ≡ stored self.old.cells frame.now }
        ensures sent { Sends out.old out.new (memory_sent own self.old.cells frame.now) }
    {
        let cell = cell_of(frame);
        if frame.is_command(0xFD, 3) {
            if self.has(cell, 1) {
                out.send(self.cell_frame(own, frame, cell));
            }
        } else if frame.is_command(0xC9, 3) {
            if self.has(cell, 4) {
                out.send(self.block_frame(own, frame, cell));
            }
        } else if frame.is_command(0xFC, 4) {
            if self.has(cell, 1) {
                self.cells[cell] = frame.bytes[3];
            }
        } else if frame.is_command(0xCA, 7) && self.has(cell, 4) {
            self.write_block(cell, frame);
            out.send(self.block_frame(own, frame, cell));
        }
    }
}
