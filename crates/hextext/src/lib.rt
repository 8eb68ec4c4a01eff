// Bytes as hexadecimal text: a reader of such text, and a writer of lines of it.
#![tactic(auto)]

mod digits;
mod error;
mod hex_lines;
mod messages;
mod mode;
mod reading;
mod word;
mod writing;

pub use error::{Position, ReadError};
pub use hex_lines::HexLines;
pub use reading::read;
pub use word::word_about;
pub use writing::write_line;
