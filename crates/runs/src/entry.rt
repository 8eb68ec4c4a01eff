// What is noted of a call.
use bus::{Frame, Refusal};
use house::Call;

// What a call answers if it is not refused.
#[derive(Clone, Copy)]
pub enum Reply {
    Accepted,
    Counts { sent: usize, pending: usize },
    Cleared(usize),
    Byte(Option<u8>),
}

// A call, its answer, and the frames that were sent.
#[derive(Drop)]
pub struct Entry {
    pub call: Call,
    pub answer: Result<Reply, Refusal>,
    pub sent: Vec<Frame>,
}
