// A frame in words.
use crate::buttons::{is_status, status};
use crate::hex::{Data, Hex};
use crate::interface::{interface, is_interface};
use crate::lamps::{is_lamps, lamp_command};
use crate::memory::{is_memory, memory};
use crate::modules::{Modules, Named};
use crate::panel::{is_panel, panel};
use crate::relay::{is_relay, relay};
use crate::times::{clock, is_clock};
use bus::Frame;
use std::fmt;
use terms::ModuleType;

// A frame, and the modules that it may be from, to or about.
#[derive(Clone, Copy)]
pub struct InWords<'a> {
    pub modules: &'a Modules,
    pub frame: Frame,
}

impl InWords<'_> {
    // Whose address it bears.
    fn named(&self) -> Named<'_> {
        Named {
            modules: self.modules,
            address: self.frame.address,
        }
    }
}

impl fmt::Display for InWords<'_> {
    fn fmt<W: fmt::Write>(&self, f: &mut fmt::Formatter<W>) -> fmt::Result {
        if !self.frame.is_well_formed() {
            let hex = Hex(self.frame);
            return write!(f, "not well formed: {hex}");
        }
        subject(self, f)?;
        said(self.named().kind(), &self.frame, f)
    }
}

// A frame in hexadecimal, and then in words.
#[derive(Clone, Copy)]
pub struct HexAndWords<'a> {
    pub modules: &'a Modules,
    pub frame: Frame,
}

impl fmt::Display for HexAndWords<'_> {
    fn fmt<W: fmt::Write>(&self, f: &mut fmt::Formatter<W>) -> fmt::Result {
        let hex = Hex(self.frame);
        let words = InWords {
            modules: self.modules,
            frame: self.frame,
        };
        write!(f, "{hex}  {words}")
    }
}

// Which module the frame is to, or tells of. Address 0 is for all of them.
fn subject<W: fmt::Write>(spoken: &InWords<'_>, f: &mut fmt::Formatter<W>) -> fmt::Result {
    let named = spoken.named();
    if spoken.frame.address == 0 {
        return f.write_str("to all modules: ");
    }
    let to = if is_told(&spoken.frame) { "" } else { "to " };
    write!(f, "{to}{named}: ")
}

// Whether the frame tells of a module, and does not ask something of it.
fn is_told(frame: &Frame) -> bool {
    frame.rtr == 0
        && matches!(
            frame.bytes[0],
            0x00 | 0xCC | 0xD8 | 0xED | 0xFB | 0xFE | 0xFF
        )
}

// What a frame says. Where the kind of the module is not known, only what all have in common can be put into words.
fn said<W: fmt::Write>(
    kind: Option<ModuleType>,
    frame: &Frame,
    f: &mut fmt::Formatter<W>,
) -> fmt::Result {
    if frame.is_type_request() {
        return f.write_str("tell the type");
    }
    if frame.address == 0 && !is_clock(frame) {
        return meaningless(frame, f);
    }
    match kind {
        _ if is_memory(frame) => memory(kind, frame, f),
        Some(ModuleType::Relay) if is_relay(frame) => relay(frame, f),
        Some(ModuleType::Relay) => meaningless(frame, f),
        Some(ModuleType::Panel) if is_panel(frame) => panel(frame, f),
        Some(ModuleType::Buttons) if is_interface(frame) => interface(frame, f),
        _ if is_status(frame) => status(frame, f),
        _ if is_lamps(frame) => lamp_command(frame, f),
        _ if frame.is_command(0xFA, 2) => f.write_str("tell the status"),
        None | Some(ModuleType::Buttons) if is_clock(frame) => clock(frame, f),
        _ => meaningless(frame, f),
    }
}

fn meaningless<W: fmt::Write>(frame: &Frame, f: &mut fmt::Formatter<W>) -> fmt::Result {
    let data = Data(*frame);
    write!(f, "{data}, which has no meaning")
}
