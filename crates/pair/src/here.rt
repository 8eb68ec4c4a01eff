// The first house: relay 10 under a sieve, panel 20, and a button interface at 30.
use crate::act::{Act, command, push};
use crate::group::{
    PANEL, RELAY, link, link_timer, press_1, press_2, release_1, release_2, second,
};
use crate::setups::{INTERFACE_SETUP, PANEL_SETUP, RELAY_SETUP};
use buttons::ButtonInterface;
use house::Call;
use kinds::{new_button_interface, new_panel, new_relay};
use module::Seat;
use panel::Panel;
use relay::Relay;
use station::{Edge, Rail, Sieve};
use terms::ModuleType;

const INTERFACE: u8 = 0x30;

pub const KINDS: [(u8, ModuleType); 3] = [
    (RELAY, ModuleType::Relay),
    (PANEL, ModuleType::Panel),
    (INTERFACE, ModuleType::Buttons),
];

pub type Modules = Rail<Rail<Sieve<Seat<Relay>>, Seat<Panel>>, Seat<ButtonInterface>>;

pub fn modules() -> Modules {
    Rail {
        first: Rail {
            first: Sieve {
                below: new_relay(RELAY, RELAY_SETUP),
            },
            second: new_panel(PANEL, PANEL_SETUP),
        },
        second: new_button_interface(INTERFACE, INTERFACE_SETUP),
    }
}

const PRESS_LOCKED: &str =
    "Outside the group: button 1 of interface 30 is pressed; its channel is locked.";

const PRESS_FREE: &str =
    "Outside the group: button 1 of interface 30 is pressed; its channel is free again.";

const RELEASE_FREE: &str = "Outside the group: button 1 of interface 30 is released.";

const PRESS: &str = "Outside the group: button 2 of interface 30 is pressed.";

const RELEASE: &str = "Outside the group: button 2 of interface 30 is released.";

// The lock is over with the second second.
pub fn acts() -> [Act; 18] {
    [
        link(),
        lock(),
        push_interface(PRESS_LOCKED, 1, Edge::Press, 0),
        link_timer(),
        press_1(),
        push_interface(PRESS, 2, Edge::Press, 1),
        push_interface(RELEASE, 2, Edge::Release, 1),
        release_1(),
        press_2(),
        release_2(),
        nobody(),
        nothing_waits(),
        byte_of_link(),
        no_byte(),
        second(0),
        second(2),
        push_interface(PRESS_FREE, 1, Edge::Press, 1),
        push_interface(RELEASE_FREE, 1, Edge::Release, 1),
    ]
}

// Nothing confirms it.
fn lock() -> Act {
    Act {
        text: "Outside the group: channel 1 of interface 30 is locked for 2 seconds.",
        call: command(INTERFACE, 5, [0x12, 0x01, 0, 0, 2, 0, 0, 0]),
        steps: 1,
    }
}

fn push_interface(text: &'static str, button: u8, edge: Edge, steps: usize) -> Act {
    Act {
        text,
        call: push(INTERFACE, button, edge),
        steps,
    }
}

fn nobody() -> Act {
    Act {
        text: "Outside the group: a button is pressed at 31, where no module is.",
        call: push(0x31, 1, Edge::Press),
        steps: 0,
    }
}

fn nothing_waits() -> Act {
    Act {
        text: "Outside the group: nothing waits, so a clear throws nothing away, and a step is refused.",
        call: Call::Clear,
        steps: 1,
    }
}

fn byte_of_link() -> Act {
    Act {
        text: "A byte of the group is asked for: cell 003C of relay 10, in which panel 20 is linked.",
        call: Call::Record {
            address: RELAY,
            place: 0x003C,
        },
        steps: 0,
    }
}

fn no_byte() -> Act {
    Act {
        text: "Outside the group: a byte is asked for at 31, where no module is.",
        call: Call::Record {
            address: 0x31,
            place: 0,
        },
        steps: 0,
    }
}
