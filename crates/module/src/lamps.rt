// The lamps beside the buttons of a module.
ghost use Rattle.std.specs.Prelude.{◌≡◌};
ghost use Rattle.module.specs.LampBytes.{marked, put_in, lamps_after};

use bus::Frame;

// A bit for each lamp: on, slow blinking, fast blinking; slow and fast together are very fast.
#[derive(Clone, Copy)]
pub struct Lamps {
    pub on: u8,
    pub slow: u8,
    pub fast: u8,
}

// How a lamp shines.
#[derive(Clone, Copy)]
pub enum LampMode {
    Out,
    On,
    Slow,
    Fast,
    VeryFast,
}

// A byte with the named bits set, or cleared.
fn mark(wanted: bool, old: u8, bits: u8) -> u8
    ensures { result ≡ marked wanted old bits }
{
    if wanted { old | bits } else { old & !bits }
}

impl Lamps {
    // All out.
    pub fn new() -> Self
        ensures { result ≡ record { on = 0; slow = 0; fast = 0 } }
    {
        Lamps {
            on: 0,
            slow: 0,
            fast: 0,
        }
    }

    // Puts the named lamps in one mode.
    fn set(&mut self, mode: LampMode, bits: u8)
        ensures { self.new ≡ put_in mode self.old bits }
    {
        self.on = mark(matches!(mode, LampMode::On), self.on, bits);
        self.slow = mark(
            matches!(mode, LampMode::Slow | LampMode::VeryFast),
            self.slow,
            bits,
        );
        self.fast = mark(
            matches!(mode, LampMode::Fast | LampMode::VeryFast),
            self.fast,
            bits,
        );
    }

    // Obeys a lamp command; any other frame does nothing here.
    pub fn obey(&mut self, frame: &Frame)
        ensures { self.new ≡ lamps_after self.old frame.now }
    {
        let bits = frame.bytes[1];
        if frame.is_command(0xF4, 4) {
            self.on = bits;
            self.slow = frame.bytes[2];
            self.fast = frame.bytes[3];
        } else if frame.is_command(0xF5, 2) {
            self.set(LampMode::Out, bits);
        } else if frame.is_command(0xF6, 2) {
            self.set(LampMode::On, bits);
        } else if frame.is_command(0xF7, 2) {
            self.set(LampMode::Slow, bits);
        } else if frame.is_command(0xF8, 2) {
            self.set(LampMode::Fast, bits);
        } else if frame.is_command(0xF9, 2) {
            self.set(LampMode::VeryFast, bits);
        }
    }
}
