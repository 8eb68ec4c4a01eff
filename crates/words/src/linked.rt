// What a link is to.
use crate::modules::Named;
use crate::numbers::Several;
use std::fmt;
use terms::ModuleType;

// The address of a module and the bits of its buttons, or of its channels if it is a relay, as far as they are known.
#[derive(Clone, Copy)]
pub(crate) struct Linked<'a> {
    // Whose link it is.
    pub(crate) owner: Named<'a>,
    pub(crate) address: Option<u8>,
    pub(crate) bits: Option<u8>,
}

impl Linked<'_> {
    // Whether the address is known and makes no link.
    pub(crate) fn is_none(&self) -> bool {
        match self.address {
            Some(address) => address == 0 || address == 0xFF || address == self.owner.address,
            None => false,
        }
    }

    pub(crate) fn is_unknown(&self) -> bool {
        self.address.is_none() && self.bits.is_none()
    }
}

impl fmt::Display for Linked<'_> {
    fn fmt<W: fmt::Write>(&self, f: &mut fmt::Formatter<W>) -> fmt::Result {
        match (self.address, self.bits) {
            (Some(address), _) if self.is_none() => write!(f, "no link (address {address:02X})"),
            (Some(address), Some(bits)) => things(self.owner.at(address), bits, f),
            (Some(address), None) => {
                let module = self.owner.at(address);
                write!(f, "address of {module}")
            }
            (None, Some(bits)) => {
                let buttons = Several::buttons(bits);
                write!(f, "{buttons} of the address in the cell before")
            }
            (None, None) => Ok(()),
        }
    }
}

// Buttons or channels of a linked module.
fn things<W: fmt::Write>(module: Named<'_>, bits: u8, f: &mut fmt::Formatter<W>) -> fmt::Result {
    let things = match module.kind() {
        Some(ModuleType::Relay) => Several::channels(bits),
        _ => Several::buttons(bits),
    };
    write!(f, "{things} of {module}")
}
