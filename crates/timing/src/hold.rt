// The hold on a channel.
ghost use Rattle.std.specs.Prelude.{◌≤◌};

// How long the channel stays locked: 0 when it is free, 0xFFFFFF when there is no end, else the seconds left. It is the
// number that its three bytes tell, so it is no enum. It has no model either: a type that contains one, in an array or
// an enum, cannot yet be handed to a generic function in the crates above.
#[derive(Clone, Copy)]
pub struct Hold {
    pub(crate) seconds: u32,
    ghost narrow: { seconds ≤ 0xFFFFFF },
}
