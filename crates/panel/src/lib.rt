// The panel VMB4PD: eight buttons with lamps, and a memory of 256 cells.
#![tactic(auto)]

mod panel;
mod rules;

pub use panel::{Panel, PanelSetup};
