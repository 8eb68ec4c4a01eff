// The group that both houses share, and what concerns it: the same acts in both houses, in the same order.
use crate::act::{Act, SECOND, command, push};
use station::Edge;

pub const RELAY: u8 = 0x10;

pub const PANEL: u8 = 0x20;

pub const GROUP: [u8; 2] = [RELAY, PANEL];

// The write is confirmed.
pub fn link() -> Act {
    Act {
        text: "In the group: button 1 of panel 20 goes into the toggle table of channel 1 of relay 10.",
        call: command(RELAY, 7, [0xCA, 0x00, 0x3C, PANEL, 0x01, 0xFF, 0xFF, 0]),
        steps: 2,
    }
}

pub fn link_timer() -> Act {
    Act {
        text: "In the group: button 2 of panel 20 goes into the table that starts timer 1 of channel 2; the timer is 2 seconds.",
        call: command(RELAY, 7, [0xCA, 0x01, 0xB4, PANEL, 0x02, 0xFF, 0xFF, 0]),
        steps: 2,
    }
}

// The press is sent; the relay answers with a report, a status of its own and a lamp command.
pub fn press_1() -> Act {
    Act {
        text: "In the group: button 1 of panel 20 is pressed.",
        call: push(PANEL, 1, Edge::Press),
        steps: 4,
    }
}

pub fn release_1() -> Act {
    Act {
        text: "In the group: button 1 of panel 20 is released.",
        call: push(PANEL, 1, Edge::Release),
        steps: 1,
    }
}

pub fn press_2() -> Act {
    Act {
        text: "In the group: button 2 of panel 20 is pressed.",
        call: push(PANEL, 2, Edge::Press),
        steps: 4,
    }
}

pub fn release_2() -> Act {
    Act {
        text: "In the group: button 2 of panel 20 is released.",
        call: push(PANEL, 2, Edge::Release),
        steps: 1,
    }
}

// The steps are for what all modules send.
pub fn second(steps: usize) -> Act {
    Act {
        text: "A second passes, which concerns every group.",
        call: SECOND,
        steps,
    }
}
