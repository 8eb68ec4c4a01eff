// The setups of the modules.
use interface::{InterfaceSetup, Serial};
use panel::PanelSetup;
use relay::{PerChannel, RelaySetup, Timers};

const TIMERS: Timers = Timers {
    first: 2,
    second: 2,
};

pub const RELAY_SETUP: RelaySetup = RelaySetup {
    timers: PerChannel {
        one: TIMERS,
        two: TIMERS,
        three: TIMERS,
        four: TIMERS,
    },
};

pub const PANEL_SETUP: PanelSetup = PanelSetup { year: 1, week: 1 };

pub const INTERFACE_SETUP: InterfaceSetup = InterfaceSetup {
    serial: Serial { high: 1, low: 1 },
    map: 1,
    year: 1,
    week: 1,
};
