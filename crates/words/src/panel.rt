// What frames say of panels.
use crate::lamps::Lamps;
use crate::numbers::Numbers;
use bus::Frame;
use std::fmt;

// Whether the frame tells what only panels tell.
pub(crate) fn is_panel(frame: &Frame) -> bool {
    matches!((frame.bytes[0], frame.count), (0xED, 6) | (0xFF, 8))
}

// What such a frame tells.
pub(crate) fn panel<W: fmt::Write>(frame: &Frame, f: &mut fmt::Formatter<W>) -> fmt::Result {
    let [command, second, on, slow, fast, year, week, _] = frame.bytes;
    let lamps = Lamps { on, slow, fast };
    let pressed = Numbers(second);
    match command {
        0xED => write!(f, "buttons pressed: {pressed}; lamps: {lamps}"),
        _ => write!(
            f,
            "type {second:02X}, build {year:02}{week:02}; lamps: {lamps}"
        ),
    }
}
