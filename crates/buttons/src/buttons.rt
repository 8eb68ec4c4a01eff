// The state of a button interface with eight buttons.
use interface::{Interface, InterfaceSetup};

#[derive(Drop)]
pub struct ButtonInterface {
    pub(crate) setup: InterfaceSetup,
    pub(crate) interface: Interface,
}
