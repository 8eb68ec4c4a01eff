// The lamps beside buttons.
use crate::numbers::{Numbers, Several};
use bus::Frame;
use std::fmt;

/// Eight lamps by their bits; one with both blinking bits blinks very fast. One whose bits say that it is on and blinks is
/// told as what its bits say.
#[derive(Clone, Copy)]
pub struct Lamps {
    pub on: u8,
    pub slow: u8,
    pub fast: u8,
}

impl fmt::Display for Lamps {
    fn fmt<W: fmt::Write>(&self, f: &mut fmt::Formatter<W>) -> fmt::Result {
        let Lamps { on, slow, fast } = *self;
        let lit = on | slow | fast;
        if lit == 0 {
            return f.write_str("all out");
        }
        let both = on & (slow | fast);
        for (bits, mode) in modes(on & !both, slow & !both, fast & !both) {
            if bits != 0 {
                let numbers = Numbers(bits);
                write!(f, "{numbers} {mode}; ")?;
            }
        }
        for (bits, mode) in modes(0, slow & both, fast & both) {
            if bits != 0 {
                let numbers = Numbers(bits);
                let whose = if bits.count_ones() == 1 {
                    "its"
                } else {
                    "their"
                };
                write!(f, "{numbers} on and {mode} by {whose} bits; ")?;
            }
        }
        f.write_str(match lit {
            0xFF => "none out",
            _ => "others out",
        })
    }
}

// Which lamps are in which mode by these bits.
fn modes(on: u8, slow: u8, fast: u8) -> [(u8, &'static str); 4] {
    [
        (on, "on"),
        (slow & !fast, "blinking slowly"),
        (fast & !slow, "blinking fast"),
        (slow & fast, "blinking very fast"),
    ]
}

pub(crate) fn is_lamps(frame: &Frame) -> bool {
    match frame.bytes[0] {
        0xF4 => frame.count == 4,
        0xF5..=0xF9 => frame.count == 2,
        _ => false,
    }
}

// What a frame asks of lamps.
pub(crate) fn lamp_command<W: fmt::Write>(frame: &Frame, f: &mut fmt::Formatter<W>) -> fmt::Result {
    let [command, bits, slow, fast, _, _, _, _] = frame.bytes;
    if command == 0xF4 {
        let lamps = Lamps {
            on: bits,
            slow,
            fast,
        };
        return write!(f, "set all lamps: {lamps}");
    }
    let named = Several::lamps(bits);
    let mode = mode_name(command);
    write!(f, "{named} {mode}")
}

// How a command has lamps be.
fn mode_name(command: u8) -> &'static str {
    match command {
        0xF5 => "out",
        0xF6 => "on",
        0xF7 => "blinking slowly",
        0xF8 => "blinking fast",
        _ => "blinking very fast",
    }
}
