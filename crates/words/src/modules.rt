// Modules by kind and address.
use std::collections::BTreeMap;
use std::fmt;
use terms::ModuleType;

// The kinds of the modules by address, as far as they are known.
pub type Modules = BTreeMap<u8, ModuleType>;

// The module at an address.
#[derive(Clone, Copy)]
pub struct Named<'a> {
    pub modules: &'a Modules,
    pub address: u8,
}

impl Named<'_> {
    pub(crate) fn kind(&self) -> Option<ModuleType> {
        self.modules.get(&self.address).copied()
    }

    // The one at another address.
    pub(crate) fn at(self, address: u8) -> Self {
        Named {
            modules: self.modules,
            address,
        }
    }
}

impl fmt::Display for Named<'_> {
    fn fmt<W: fmt::Write>(&self, f: &mut fmt::Formatter<W>) -> fmt::Result {
        let address = self.address;
        match self.kind() {
            Some(kind) => write!(f, "{kind} {address:02X}"),
            None => write!(f, "unknown module {address:02X}"),
        }
    }
}
