// What happens to the holds.
ghost use Rattle.std.specs.Prelude.{◌≡◌, replicate};
ghost use Rattle.timing.specs.Holds.{locked};
ghost use Rattle.interface.specs.Channels.{hold_on, locked_bits, on_named, held_after, all_ticked};
ghost use Rattle.interface.specs.Shown.{all_held};

use crate::holds::Holds;
use timing::{Hold, Locking};

impl Holds {
    // All channels free.
    pub(crate) fn new() -> Self
        ensures { all_held result ≡ replicate 8 0 }
    {
        Holds {
            channels: [Hold::free(); 8],
        }
    }

    // Does what is asked of the named channels; the number of a hold is the place of its bit.
    fn obey_all_named(&mut self, locking: Locking, bits: u8)
        ensures { all_held self.new ≡ on_named locking bits 1 (all_held self.old) }
    {
        for (n, hold) in self.channels.iter_mut().enumerate() {
            if bits & (1 << n) != 0 {
                hold.obey(locking);
            }
        }
    }

    // Does what is asked of the named channels, if anything is.
    pub(crate) fn obey(&mut self, locking: Option<Locking>, bits: u8)
        ensures { all_held self.new ≡ held_after locking bits (all_held self.old) }
    {
        if let Some(locking) = locking {
            self.obey_all_named(locking, bits);
        }
    }

    // A second passes.
    pub(crate) fn tick(&mut self)
        ensures { all_held self.new ≡ all_ticked (all_held self.old) }
    {
        for hold in self.channels.iter_mut() {
            hold.tick();
        }
    }

    // The bits of the locked channels.
    pub(crate) fn locked_bits(&self) -> u8
        ensures { result ≡ locked_bits 1 (all_held self.now) }
    {
        let mut bits = 0u8;
        for (n, hold) in self.channels.iter().enumerate() {
            if hold.is_locked() {
                bits += 1 << n;
            }
        }
        bits
    }

    // Whether a channel is locked; past the last there is no lock, and 0 is read as 1.
    pub(crate) fn is_locked(&self, channel: u8) -> bool
        ensures { result ≡ locked (hold_on (all_held self.now) channel) }
    {
        self.channels
            .get(usize::from(channel.saturating_sub(1)))
            .is_some_and(Hold::is_locked)
    }
}
