// A door chime of another maker. It stands on the bus by the station's rules alone, and shares nothing with the modules
// of the collection.
#![tactic(auto)]

mod chime;
mod command;
mod rules;

pub use chime::Chime;
