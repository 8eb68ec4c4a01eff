// What the frames on the bus last told of the modules.
use bus::Frame;

// The bits of the contacts that are closed, and of the lamps that shine.
#[derive(Clone, Copy)]
pub struct Told {
    pub contacts: u8,
    pub lamps_on: u8,
}

impl Told {
    // What frames tell, the oldest of them first.
    pub fn by(frames: &[Frame]) -> Self {
        let mut told = Told {
            contacts: 0,
            lamps_on: 0,
        };
        for frame in frames {
            told.note(frame);
        }
        told
    }

    // A channel's status tells of its contact, a panel's status of its lamps.
    fn note(&mut self, frame: &Frame) {
        let [command, bit, on, state, fast, _, _, _] = frame.bytes;
        match command {
            0xFB if state == 0 => self.contacts &= !bit,
            0xFB => self.contacts |= bit,
            0xED => self.lamps_on = on | state | fast,
            _ => {}
        }
    }
}
