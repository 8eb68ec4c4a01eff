// A group of addresses in two houses: the frames of it that were sent, and whether its records are the same.
#![tactic(auto)]

mod compare;
mod group;

pub use compare::{same_frames, same_record, same_records};
pub use group::{all_sent, frames_of, is_in};
