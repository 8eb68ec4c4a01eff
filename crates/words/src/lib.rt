// Frames and memory cells for people: frames in hexadecimal as a log has them, and in words.
#![tactic(auto)]

mod buttons;
mod cells;
mod hex;
mod in_words;
mod interface;
mod lamps;
mod linked;
mod memory;
mod modules;
mod numbers;
mod panel;
mod record;
mod relay;
mod times;

pub use cells::CellLines;
pub use hex::Hex;
pub use in_words::{HexAndWords, InWords};
pub use lamps::Lamps;
pub use modules::{Modules, Named};
pub use numbers::Numbers;
pub use relay::Contact;
pub use times::{LockTime, Moment, Span};
