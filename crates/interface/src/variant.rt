// What tells one kind of button interface from another.

// The type code, how many buttons there are, and which channel bits count in locking.
#[derive(Clone, Copy)]
pub struct Variant {
    pub code: u8,
    pub buttons: u8,
    pub channels: u8,
}
