// What frames say of relays.
use crate::numbers::Several;
use crate::times::Span;
use bus::Frame;
use std::fmt;

// Whether the frame says what only relays understand or tell.
pub(crate) fn is_relay(frame: &Frame) -> bool {
    matches!(
        (frame.bytes[0], frame.count),
        (0x00, 4) | (0x01 | 0x02 | 0xFA, 2) | (0x03, 5) | (0xFB, 8)
    )
}

// What such a frame says. Of the bits in a command, four count.
pub(crate) fn relay<W: fmt::Write>(frame: &Frame, f: &mut fmt::Formatter<W>) -> fmt::Result {
    let [command, bits, opened, _, _, _, _, _] = frame.bytes;
    let channels = Several::channels(bits & 0x0F);
    let verb = match command {
        0x00 => return switched(bits, opened, f),
        0x01 => "open",
        0x02 => "close",
        0x03 => return run(channels, frame.seconds(), f),
        0xFA => "tell the status of",
        _ => return reported(frame, f),
    };
    write!(f, "{verb} {channels}")
}

// How long channels are to run.
fn run<W: fmt::Write>(channels: Several, time: u32, f: &mut fmt::Formatter<W>) -> fmt::Result {
    let span = Span(time);
    let after = match time {
        0xFFFFFF => return write!(f, "close {channels} without end"),
        0 => ", which does nothing",
        _ => "",
    };
    write!(f, "close {channels} for {span}{after}")
}

// How a channel is said to be.
fn reported<W: fmt::Write>(frame: &Frame, f: &mut fmt::Formatter<W>) -> fmt::Result {
    let [_, bit, _, state, _, high, mid, low] = frame.bytes;
    let channel = Several::channels(bit);
    let contact = Contact {
        state,
        time: u32::from_be_bytes([0, high, mid, low]),
    };
    let verb = if bit.count_ones() > 1 { "are" } else { "is" };
    write!(f, "{channel} {verb} {contact}")
}

// The contact of a channel by its state byte, and how long it stays closed if it runs.
#[derive(Clone, Copy)]
pub struct Contact {
    pub state: u8,
    pub time: u32,
}

impl fmt::Display for Contact {
    fn fmt<W: fmt::Write>(&self, f: &mut fmt::Formatter<W>) -> fmt::Result {
        let span = Span(self.time);
        match self.state {
            0 => f.write_str("open"),
            1 => f.write_str("closed"),
            _ => write!(f, "closed for {span} more"),
        }
    }
}

// Which contacts changed.
fn switched<W: fmt::Write>(closed: u8, opened: u8, f: &mut fmt::Formatter<W>) -> fmt::Result {
    let now_closed = Several::channels(closed);
    let now_open = Several::channels(opened);
    match (closed, opened) {
        (0, 0) => f.write_str("no channel just closed or opened"),
        (_, 0) => write!(f, "{now_closed} just closed"),
        (0, _) => write!(f, "{now_open} just opened"),
        _ => write!(f, "{now_closed} just closed, {now_open} just opened"),
    }
}
