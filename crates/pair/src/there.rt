// The second house: relays 50 and 10 under one sieve, and panels 40 and 20.
use crate::act::{Act, SECOND, command, push};
use crate::group::{
    PANEL, RELAY, link, link_timer, press_1, press_2, release_1, release_2, second,
};
use crate::setups::{PANEL_SETUP, RELAY_SETUP};
use kinds::{new_panel, new_relay};
use module::Seat;
use panel::Panel;
use relay::Relay;
use station::{Edge, Rail, Sieve};
use terms::ModuleType;

const OTHER_RELAY: u8 = 0x50;

const OTHER_PANEL: u8 = 0x40;

pub const KINDS: [(u8, ModuleType); 4] = [
    (OTHER_RELAY, ModuleType::Relay),
    (RELAY, ModuleType::Relay),
    (OTHER_PANEL, ModuleType::Panel),
    (PANEL, ModuleType::Panel),
];

pub type Modules = Rail<Sieve<Rail<Seat<Relay>, Seat<Relay>>>, Rail<Seat<Panel>, Seat<Panel>>>;

pub fn modules() -> Modules {
    Rail {
        first: Sieve {
            below: Rail {
                first: new_relay(OTHER_RELAY, RELAY_SETUP),
                second: new_relay(RELAY, RELAY_SETUP),
            },
        },
        second: Rail {
            first: new_panel(OTHER_PANEL, PANEL_SETUP),
            second: new_panel(PANEL, PANEL_SETUP),
        },
    }
}

// With the last second two times are over, one in the group and one outside it.
pub fn acts() -> [Act; 13] {
    [
        link_others(),
        link(),
        link_timer(),
        press_other(),
        too_soon(),
        press_1(),
        release_other(),
        release_1(),
        press_2(),
        run_other(),
        release_2(),
        second(0),
        second(4),
    ]
}

fn link_others() -> Act {
    Act {
        text: "Outside the group: button 1 of panel 40 goes into the toggle table of channel 1 of relay 50.",
        call: command(
            OTHER_RELAY,
            7,
            [0xCA, 0x00, 0x3C, OTHER_PANEL, 0x01, 0xFF, 0xFF, 0],
        ),
        steps: 2,
    }
}

fn press_other() -> Act {
    Act {
        text: "Outside the group: button 1 of panel 40 is pressed.",
        call: push(OTHER_PANEL, 1, Edge::Press),
        steps: 0,
    }
}

// It is refused, and the frames of the press pass after it.
fn too_soon() -> Act {
    Act {
        text: "A second is asked for too soon: it is refused, and does not count.",
        call: SECOND,
        steps: 4,
    }
}

fn release_other() -> Act {
    Act {
        text: "Outside the group: button 1 of panel 40 is released.",
        call: push(OTHER_PANEL, 1, Edge::Release),
        steps: 1,
    }
}

// The contact is closed already, so nothing is reported before the time is over.
fn run_other() -> Act {
    Act {
        text: "Outside the group: channel 1 of relay 50 is to run for 2 seconds.",
        call: command(OTHER_RELAY, 5, [0x03, 0x01, 0, 0, 2, 0, 0, 0]),
        steps: 1,
    }
}
