// The states of modules in words.
use house::House;
use kinds::BenchModules;
use std::fmt;
use terms::ModuleType;
use words::{Contact, Lamps, LockTime, Moment, Numbers};

// How a button is: its channel is locked, or else the button is down or up.
#[derive(Clone, Copy)]
pub enum Button {
    Locked,
    Down,
    Up,
}

// The state bytes of a module, as its record has them.
#[derive(Clone, Copy)]
pub struct State<'a> {
    pub house: &'a House<BenchModules>,
    pub address: u8,
    pub kind: ModuleType,
}

impl State<'_> {
    // One of them, counted from 0; in the record the cells stand before them.
    pub fn byte(&self, at: usize) -> u8 {
        let place = self.kind.cells().saturating_add(at);
        self.house.record(self.address, place).unwrap_or(0)
    }

    // A time of three bytes.
    fn time(&self, at: usize) -> u32 {
        let high = self.byte(at);
        let mid = self.byte(at.saturating_add(1));
        let low = self.byte(at.saturating_add(2));
        u32::from_be_bytes([0, high, mid, low])
    }

    // How long a channel stays locked; channels count from 0 here, and only button interfaces have locks.
    fn hold(&self, channel: u8) -> u32 {
        match self.kind {
            ModuleType::Buttons => self.time(4 + 3 * usize::from(channel)),
            ModuleType::Relay | ModuleType::Panel => 0,
        }
    }

    // Which buttons are down, a bit each.
    pub fn pressed(&self) -> u8 {
        self.byte(3)
    }

    // How a button is; buttons count from 0 here.
    pub fn button(&self, channel: u8) -> Button {
        let bit = 1u8.checked_shl(u32::from(channel)).unwrap_or(0);
        if self.hold(channel) != 0 {
            Button::Locked
        } else if self.pressed() & bit != 0 {
            Button::Down
        } else {
            Button::Up
        }
    }

    // The lamps of a module with buttons.
    pub fn lamps(&self) -> Lamps {
        Lamps {
            on: self.byte(0),
            slow: self.byte(1),
            fast: self.byte(2),
        }
    }
}

// The contacts of a relay.
#[derive(Clone, Copy)]
pub struct Contacts<'a>(pub State<'a>);

impl fmt::Display for Contacts<'_> {
    fn fmt<W: fmt::Write>(&self, f: &mut fmt::Formatter<W>) -> fmt::Result {
        for (channel, at) in [(1, 0), (2, 4), (3, 8), (4, 12)] {
            let contact = Contact {
                state: self.0.byte(at),
                time: self.0.time(at + 1),
            };
            let joint = if channel == 1 { "" } else { ", " };
            write!(f, "{joint}{channel} {contact}")?;
        }
        Ok(())
    }
}

// The locked channels of a button interface; those with the same time left stand together.
#[derive(Clone, Copy)]
pub struct Locks<'a>(pub State<'a>);

impl fmt::Display for Locks<'_> {
    fn fmt<W: fmt::Write>(&self, f: &mut fmt::Formatter<W>) -> fmt::Result {
        let mut joint = "";
        for channel in 0..8u8 {
            let hold = self.0.hold(channel);
            let alike = self.channels(hold);
            if hold == 0 || alike.trailing_zeros() != u32::from(channel) {
                continue;
            }
            let numbers = Numbers(alike);
            let lasting = LockTime(hold);
            let more = if hold == 0xFFFFFF { "" } else { " more" };
            write!(f, "{joint}{numbers} {lasting}{more}")?;
            joint = "; ";
        }
        if joint.is_empty() {
            return f.write_str("none");
        }
        Ok(())
    }
}

impl Locks<'_> {
    // The channels that stay locked for just so long, a bit each.
    fn channels(&self, hold: u32) -> u8 {
        let mut bits = 0;
        for channel in 0..8u8 {
            if self.0.hold(channel) == hold {
                bits |= 1 << channel;
            }
        }
        bits
    }
}

// The clock of a button interface.
#[derive(Clone, Copy)]
pub struct ClockTime<'a>(pub State<'a>);

impl fmt::Display for ClockTime<'_> {
    fn fmt<W: fmt::Write>(&self, f: &mut fmt::Formatter<W>) -> fmt::Result {
        let moment = Moment {
            day: self.0.byte(28),
            hour: self.0.byte(29),
            minute: self.0.byte(30),
        };
        let second = self.0.byte(31);
        write!(f, "{moment}:{second:02}")
    }
}
