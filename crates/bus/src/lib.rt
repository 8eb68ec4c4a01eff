// What travels on the bus: frames, the outbox that a module sends them to, and the refusals of the bench.
#![tactic(auto)]

mod frame;
mod outbox;
mod refusal;

pub use frame::Frame;
pub use outbox::Outbox;
pub use refusal::Refusal;
