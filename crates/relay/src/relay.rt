// The state of a relay.
use crate::channel::Channel;
use crate::pairs::Pairs;
use crate::per_channel::PerChannel;
use crate::timers::Timers;

// The timers of each channel.
#[derive(Clone, Copy)]
pub struct RelaySetup {
    pub timers: PerChannel<Timers>,
}

#[derive(Drop)]
pub struct Relay {
    pub(crate) setup: RelaySetup,
    pub(crate) pairs: Pairs,
    pub(crate) channels: PerChannel<Channel>,
}
