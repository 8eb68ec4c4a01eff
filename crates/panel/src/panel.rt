// The state of a panel.
use module::{Buttons, Lamps, Memory};

// How many cells the memory has.
pub const CELLS: usize = 256;

// When the module was built, as its type reply tells it.
#[derive(Clone, Copy)]
pub struct PanelSetup {
    pub year: u8,
    pub week: u8,
}

#[derive(Drop)]
pub struct Panel {
    pub(crate) setup: PanelSetup,
    pub(crate) memory: Memory<CELLS>,
    pub(crate) lamps: Lamps,
    pub(crate) buttons: Buttons,
}
