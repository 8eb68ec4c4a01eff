// The stations that houses are made of. A kind comes with the addresses of its modules, which may be faulty.
use buttons::ButtonInterface;
use chime::Chime;
use interface::{InterfaceSetup, Serial};
use kinds::{new_button_interface, new_panel, new_relay};
use module::Seat;
use panel::{Panel, PanelSetup};
use relay::{PerChannel, Relay, RelaySetup, Timers};
use station::{Rail, Sieve};

// A button interface, a panel, a relay, and a chime under a sieve, in this order.
pub(crate) type Modules = Rail<
    Rail<Seat<ButtonInterface>, Seat<Panel>>,
    Rail<Seat<Relay>, Sieve<Chime>>,
>;

type Four = Rail<Rail<Chime, Chime>, Rail<Chime, Chime>>;

// Sixteen chimes: four at addresses of choice, then twelve at 14 to 1F.
pub(crate) type Sixteen = Rail<Rail<Four, Four>, Rail<Four, Four>>;

// A panel behind sixteen chimes.
pub(crate) type Seventeen = Rail<Sixteen, Seat<Panel>>;

pub(crate) fn modules([interface, panel, relay, chime]: [u8; 4]) -> Modules {
    Rail {
        first: Rail {
            first: new_interface(interface),
            second: new_panel(panel, PANEL),
        },
        second: Rail {
            first: timed_relay(relay),
            second: Sieve {
                below: Chime::new(chime, TONE),
            },
        },
    }
}

const PANEL: PanelSetup = PanelSetup { year: 8, week: 17 };

const TONE: u8 = 5;

fn new_interface(address: u8) -> Seat<ButtonInterface> {
    let setup = InterfaceSetup {
        serial: Serial {
            high: 0x12,
            low: 0x34,
        },
        map: 2,
        year: 11,
        week: 22,
    };
    new_button_interface(address, setup)
}

// Its timers are 5 and 70,000 seconds.
fn timed_relay(address: u8) -> Seat<Relay> {
    let timers = Timers {
        first: 5,
        second: 70_000,
    };
    let setup = RelaySetup {
        timers: PerChannel {
            one: timers,
            two: timers,
            three: timers,
            four: timers,
        },
    };
    new_relay(address, setup)
}

fn four([a, b, c, d]: [u8; 4]) -> Four {
    Rail {
        first: Rail {
            first: Chime::new(a, TONE),
            second: Chime::new(b, TONE),
        },
        second: Rail {
            first: Chime::new(c, TONE),
            second: Chime::new(d, TONE),
        },
    }
}

pub(crate) fn sixteen(addresses: [u8; 4]) -> Sixteen {
    Rail {
        first: Rail {
            first: four(addresses),
            second: four([0x14, 0x15, 0x16, 0x17]),
        },
        second: Rail {
            first: four([0x18, 0x19, 0x1A, 0x1B]),
            second: four([0x1C, 0x1D, 0x1E, 0x1F]),
        },
    }
}

// With the panel at the last address.
pub(crate) fn seventeen([a, b, c, last]: [u8; 4]) -> Seventeen {
    Rail {
        first: sixteen([a, b, c, 0x13]),
        second: new_panel(last, PANEL),
    }
}
