// The group of an address: the addresses that links lead to from it, whichever way they point.
#![tactic(auto)]

mod group;
mod listing;
mod search;

pub use group::{Group, group_is_smallest};
