//! What the programs have in common: how they read their command lines and their input, and with which status they end.
#![tactic(auto)]

mod command_line;
mod ending;
mod error;
mod source;

pub use command_line::{VERSION, command, file_argument, matches, no_arguments, words};
pub use ending::end;
pub use error::{Error, Result};
pub use source::{Line, Source};
