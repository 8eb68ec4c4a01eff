// Runs: a list of calls made on a new house, and what holds of every run.
#![tactic(auto)]

mod entry;
mod performing;
mod replayed;

pub use entry::{Entry, Reply};
pub use performing::{number_sent, perform};
pub use replayed::{Replayed, Unfinished, replay};
