// What to do about a refusal.
use bus::Refusal;
use house::Call;
use std::fmt;
use terms::{Flaw, ModuleType};
use words::Modules;

// A call that was refused, and how many frames waited then.
#[derive(Clone, Copy)]
pub struct Advice<'a> {
    pub modules: &'a Modules,
    pub call: Call,
    pub refusal: Refusal,
    pub waiting: usize,
}

impl fmt::Display for Advice<'_> {
    fn fmt<W: fmt::Write>(&self, f: &mut fmt::Formatter<W>) -> fmt::Result {
        let waiting = self.waiting;
        match self.refusal {
            Refusal::IllFormedFrame => frame_advice(self.call, f),
            Refusal::NoSuchSeat => f.write_str("modules are at 10, 20 and 30"),
            Refusal::NoSuchButton => self.push_advice(f),
            Refusal::NotQuiet if waiting == 1 => f.write_str("1 waits: a step, or a clear"),
            Refusal::NotQuiet => write!(f, "{waiting} wait: as many steps, or a clear"),
            Refusal::NothingPending => f.write_str("leave this step out"),
            Refusal::NoRoom => f.write_str("a clear drops the frames that wait"),
            _ => f.write_str("look at the program that put the house together"),
        }
    }
}

impl Advice<'_> {
    // About a button that is not there, or an edge that is none.
    fn push_advice<W: fmt::Write>(&self, f: &mut fmt::Formatter<W>) -> fmt::Result {
        let Call::Push { address, edge, .. } = self.call else {
            return Ok(());
        };
        if edge > 2 {
            return write!(f, "edges are 00, 01 and 02, and this is {edge:02X}");
        }
        match self.modules.get(&address) {
            Some(ModuleType::Relay) => f.write_str("a relay has no buttons"),
            _ => f.write_str("its buttons count from 01 to 08"),
        }
    }
}

// About a frame that is not well formed.
fn frame_advice<W: fmt::Write>(call: Call, f: &mut fmt::Formatter<W>) -> fmt::Result {
    let Call::Put(frame) = call else {
        return Ok(());
    };
    match Flaw::of(&frame) {
        Some(flaw) => write!(f, "{flaw}"),
        None => Ok(()),
    }
}
