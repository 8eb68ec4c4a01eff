// A query for a pair of a channel.

// An address, and the buttons of which one must be in common; with none given, any pair of the address will do.
#[derive(Clone, Copy)]
pub struct Query {
    pub address: u8,
    pub buttons: Option<u8>,
}
