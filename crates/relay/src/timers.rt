// The two timers of a channel.

// In seconds, as the setup gives them, also out of range.
#[derive(Clone, Copy)]
pub struct Timers {
    pub first: u32,
    pub second: u32,
}
