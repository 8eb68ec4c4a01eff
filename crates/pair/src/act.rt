// What is done in a house, call by call.
use bus::Frame;
use house::Call;
use station::Edge;
use std::alloc::{AllocError, Global};

// Room for what 16 seats send; no house has more.
const PLACES: usize = 144;

pub const SECOND: Call = Call::Second { places: PLACES };

const STEP: Call = Call::Step { places: PLACES };

// A call, what it is for, and how many steps follow it.
#[derive(Clone, Copy)]
pub struct Act {
    pub text: &'static str,
    pub call: Call,
    pub steps: usize,
}

// A command to a module.
pub fn command(address: u8, count: u8, bytes: [u8; 8]) -> Call {
    Call::Put(Frame::new(3, address, count, bytes))
}

pub fn push(address: u8, channel: u8, edge: Edge) -> Call {
    Call::Push {
        address,
        channel,
        edge: edge as u8,
        places: PLACES,
    }
}

// All the calls of the acts, with their steps.
pub fn calls_of(heap: Global, acts: &[Act]) -> Result<Vec<Call>, AllocError> {
    let mut calls = Vec::new(heap);
    for act in acts {
        calls.push(act.call)?;
        for _ in 0..act.steps {
            calls.push(STEP)?;
        }
    }
    Ok(calls)
}
