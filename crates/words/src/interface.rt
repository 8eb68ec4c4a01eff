// What frames say of button interfaces.
use crate::numbers::{Numbers, Several};
use crate::times::LockTime;
use bus::Frame;
use std::fmt;

// Whether the frame says what only button interfaces understand or tell.
pub(crate) fn is_interface(frame: &Frame) -> bool {
    matches!(
        (frame.bytes[0], frame.count),
        (0x12, 5) | (0x13, 2) | (0xED, 7) | (0xFF, 7)
    )
}

// What such a frame says.
pub(crate) fn interface<W: fmt::Write>(frame: &Frame, f: &mut fmt::Formatter<W>) -> fmt::Result {
    let [command, bits, _, _, locked, _, _, _] = frame.bytes;
    let channels = Several::channels(bits);
    match command {
        0x12 => lock(channels, frame.seconds(), f),
        0x13 => write!(f, "unlock {channels}"),
        0xED => {
            let pressed = Numbers(bits);
            let locked = Numbers(locked);
            write!(f, "buttons pressed: {pressed}; channels locked: {locked}")
        }
        _ => built(frame, f),
    }
}

// How long to lock channels.
fn lock<W: fmt::Write>(channels: Several, time: u32, f: &mut fmt::Formatter<W>) -> fmt::Result {
    let lasting = LockTime(time);
    let after = if time == 0 {
        ", which does nothing"
    } else {
        ""
    };
    write!(f, "lock {channels} {lasting}{after}")
}

// What the reply to a type request tells.
fn built<W: fmt::Write>(frame: &Frame, f: &mut fmt::Formatter<W>) -> fmt::Result {
    let [_, code, high, low, map, year, week, _] = frame.bytes;
    write!(f, "type {code:02X}, serial number {high:02X}{low:02X}, ")?;
    write!(f, "memory map {map}, build {year:02}{week:02}")
}
