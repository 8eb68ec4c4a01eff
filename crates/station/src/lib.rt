// Stations. A station stands on the bus and has seats, at least one, whose order does not change; a seat is a module at
// an address. A rail makes one station of two. A sieve shields a station from frames that concern none of its seats.
#![tactic(auto)]

mod addresses;
mod edge;
mod event;
mod listing;
mod rail;
mod sieve;
mod station;

pub use addresses::Addresses;
pub use edge::Edge;
pub use event::{Event, Push};
pub use rail::Rail;
pub use sieve::Sieve;
pub use station::Station;
