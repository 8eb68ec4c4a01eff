// A link record.

// An address, the bits of its buttons, the action, a time code and the bits of the channels.
#[derive(Clone, Copy)]
pub(crate) struct Link {
    pub(crate) address: u8,
    pub(crate) buttons: u8,
    pub(crate) action: u8,
    pub(crate) code: u8,
    pub(crate) channels: u8,
}
