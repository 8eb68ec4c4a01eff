// What the button interfaces share: eight channels that can be locked, the link records that lock them, and a clock.
#![tactic(auto)]

mod bytes;
mod holds;
mod interface;
mod link;
mod links;
mod locks;
mod records;
mod rules;
mod setup;
mod variant;

pub use holds::Holds;
pub use interface::Interface;
pub use records::CELLS;
pub use setup::{InterfaceSetup, Serial};
pub use variant::Variant;
