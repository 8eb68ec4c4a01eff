// A channel of the relay.
use crate::seconds::Seconds;

// A running channel is closed until its time is over. Clauses read it by a word, since an enum has no model.
#[derive(Clone, Copy)]
pub enum Channel {
    Open,
    Closed,
    Running(Seconds),
}
