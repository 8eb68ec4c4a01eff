// What frames say of memories.
use bus::Frame;
use std::fmt;
use terms::ModuleType;

pub(crate) fn is_memory(frame: &Frame) -> bool {
    matches!(
        (frame.bytes[0], frame.count),
        (0xC9 | 0xFD, 3) | (0xCA | 0xCC, 7) | (0xFC | 0xFE, 4)
    )
}

// How many cells the frame is about.
fn width(frame: &Frame) -> usize {
    match frame.bytes[0] {
        0xC9 | 0xCA | 0xCC => 4,
        _ => 1,
    }
}

// The first of the cells that a frame is about.
pub(crate) fn first_cell(frame: &Frame) -> usize {
    let [_, high, low, _, _, _, _, _] = frame.bytes;
    usize::from(u16::from_be_bytes([high, low]))
}

// Whether a cell that the frame is about lies past the end of the memory; then the frame has no effect.
pub(crate) fn is_past_end(kind: ModuleType, frame: &Frame) -> bool {
    first_cell(frame).saturating_add(width(frame)) > kind.cells()
}

// What a frame says of a memory.
pub(crate) fn memory<W: fmt::Write>(
    kind: Option<ModuleType>,
    frame: &Frame,
    f: &mut fmt::Formatter<W>,
) -> fmt::Result {
    let cell = first_cell(frame);
    let (before, bytes, place, after) = match frame.bytes[0] {
        0xC9 => ("read four cells from ", 0, "", " on"),
        0xCA => ("write ", 4, "from cell ", " on"),
        0xCC => ("", 4, "stand from cell ", " on"),
        0xFC => ("write ", 1, "to cell ", ""),
        0xFD => ("read cell ", 0, "", ""),
        _ => ("", 1, "stands in cell ", ""),
    };
    f.write_str(before)?;
    carried(frame, bytes, f)?;
    let end = match kind {
        Some(kind) if is_past_end(kind, frame) => ", past the end: no effect",
        _ => "",
    };
    write!(f, "{place}{cell:04X}{after}{end}")
}

// So many of the bytes behind the cell's number, each with a space behind it.
fn carried<W: fmt::Write>(frame: &Frame, number: usize, f: &mut fmt::Formatter<W>) -> fmt::Result {
    for byte in frame.bytes.iter().skip(3).take(number) {
        write!(f, "{byte:02X} ")?;
    }
    Ok(())
}
