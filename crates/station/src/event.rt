// What can happen to a station.
use crate::edge::Edge;
use bus::Frame;

// An edge at a button of the seat with that address; channels count from 1.
#[derive(Clone, Copy)]
pub struct Push {
    pub address: u8,
    pub channel: u8,
    pub edge: Edge,
}

// A frame on the bus, a second that passes, or a push.
#[derive(Clone, Copy)]
pub enum Event {
    Heard(Frame),
    Second,
    Pushed(Push),
}
