// What all modules have in common: memory, lamps, buttons, and the seat, which makes a station of a module and an
// address.
#![tactic(auto)]

mod buttons;
mod lamps;
mod memory;
mod module;
mod rows;
mod seat;

pub use buttons::Buttons;
pub use lamps::{LampMode, Lamps};
pub use memory::{Memory, byte_at, is_write};
pub use module::{Module, ModuleKind};
pub use rows::{Rows, is_seatable};
pub use seat::Seat;
