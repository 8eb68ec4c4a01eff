// The state of a button interface.
ghost use Rattle.timing.specs.Times.{Real};

use crate::holds::Holds;
use crate::records::Records;
use module::{Buttons, Lamps};
use timing::Clock;

// Clauses read it by two words, its cells and its state; a model would be a record of the same two.
#[derive(Drop)]
pub struct Interface {
    pub(crate) records: Records,
    pub(crate) lamps: Lamps,
    pub(crate) buttons: Buttons,
    pub(crate) holds: Holds,
    pub(crate) clock: Clock,
    // the time that the clock shows exists; clauses above `timing` see that time alone, and not what a clock promises of it
    ghost real: { Real clock },
}
