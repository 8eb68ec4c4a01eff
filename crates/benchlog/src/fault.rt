// What is wrong with a log.
use bus::Refusal;

// The refusal, and the place of the kind byte at which the log can be read no further.
#[derive(Clone, Copy)]
pub struct Fault {
    pub refusal: Refusal,
    pub place: usize,
}
