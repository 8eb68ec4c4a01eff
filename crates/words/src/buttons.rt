// What happens to buttons.
use crate::numbers::Several;
use bus::Frame;
use std::fmt;

// Whether the frame is a button status.
pub(crate) fn is_status(frame: &Frame) -> bool {
    frame.is_command(0x00, 4)
}

// What a button status tells: each edge that buttons had.
pub(crate) fn status<W: fmt::Write>(frame: &Frame, f: &mut fmt::Formatter<W>) -> fmt::Result {
    let [_, pressed, released, long, _, _, _, _] = frame.bytes;
    let edges = [
        (pressed, "pressed"),
        (released, "released"),
        (long, "pressed for long"),
    ];
    if pressed | released | long == 0 {
        return f.write_str("no button pressed or released");
    }
    let mut joint = "";
    for (bits, edge) in edges {
        if bits != 0 {
            let buttons = Several::buttons(bits);
            write!(f, "{joint}{buttons} {edge}")?;
            joint = ", ";
        }
    }
    Ok(())
}
