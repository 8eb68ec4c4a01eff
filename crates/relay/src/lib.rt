// The relay VMB4RY: four channels that obey the buttons linked in its memory of 1,024 cells.
#![tactic(auto)]

mod action;
mod channel;
mod pairs;
mod per_channel;
mod query;
mod relay;
mod reports;
mod rules;
mod seconds;
mod switching;
mod tables;
mod timers;

pub use action::Action;
pub use channel::Channel;
pub use per_channel::PerChannel;
pub use relay::{Relay, RelaySetup};
pub use seconds::Seconds;
pub use timers::Timers;
