// The button interface VMB8PBU: eight buttons with lamps and a clock; linked buttons can lock its channels.
#![tactic(auto)]

mod buttons;
mod rules;

pub use buttons::ButtonInterface;
