// Logs that are read from a program's input.
#![tactic(auto)]

mod error;
mod form;
mod reading;

pub use error::LogError;
pub use form::Form;
pub use reading::{LIMIT, read_any, read_log};
