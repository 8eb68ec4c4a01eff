// The holds on the channels.
ghost use Rattle.std.specs.Prelude.{◌≡◌, length};

use timing::Hold;

// One for each of the eight channels, from channel 1 on.
#[derive(Clone, Copy)]
pub struct Holds {
    pub(crate) channels: [Hold; 8],
    ghost eight: { length channels ≡ 8 },
}
