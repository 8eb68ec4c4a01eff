// The calls of a house as values, for those who make many of them.
use bus::Frame;

// A call with its arguments; of a buffer that is handed in, how many places it has.
#[derive(Clone, Copy)]
pub enum Call {
    Put(Frame),
    Push {
        address: u8,
        channel: u8,
        edge: u8,
        places: usize,
    },
    Second {
        places: usize,
    },
    Step {
        places: usize,
    },
    Clear,
    Record {
        address: u8,
        place: usize,
    },
}
