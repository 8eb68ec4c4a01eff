// Times: the codes that link records have for them, the hold on a channel, and the clock.
#![tactic(auto)]

mod clock;
mod clock_changes;
mod codes;
mod hold;
mod hold_changes;
mod locking;

pub use clock::Clock;
pub use codes::{hold_of_code, seconds_of_code};
pub use hold::Hold;
pub use locking::Locking;
