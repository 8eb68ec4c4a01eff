// The commands of a chime.
ghost use Rattle.std.specs.Prelude.{◌≡◌};
ghost use Rattle.chime.specs.Commands.{command_of};

use bus::Frame;

// What a frame with the own address asks: to put a byte or four into the memory from a cell on, or to follow an address
// by so many strokes.
#[derive(Clone, Copy)]
pub(crate) enum Command {
    Write(u16, u8),
    WriteBlock(u16, [u8; 4]),
    Follow(u8, u8),
    Other,
}

impl Command {
    pub(crate) fn parse(frame: &Frame) -> Self
        ensures { result ≡ command_of frame.now }
    {
        match (frame.rtr, frame.count, frame.bytes) {
            (0, 4, [0xFC, high, low, byte, _, _, _, _]) => {
                Command::Write(u16::from_be_bytes([high, low]), byte)
            }
            (0, 7, [0xCA, high, low, a, b, c, d, _]) => {
                Command::WriteBlock(u16::from_be_bytes([high, low]), [a, b, c, d])
            }
            (0, 3, [0xA0, link, strokes, _, _, _, _, _]) => Command::Follow(link, strokes),
            _ => Command::Other,
        }
    }
}
