// What happens to a hold.
ghost use Rattle.std.specs.Prelude.{◌≡◌, ◌/◌, ◌%◌, [], ◌∷◌};
ghost use Rattle.timing.specs.Holds.{locked, hold_for, obeyed, ticked};
ghost use Rattle.timing.specs.Shown.{held};

use crate::hold::Hold;
use crate::locking::Locking;

impl Hold {
    // None: the channel is free.
    pub fn free() -> Self
        ensures { held result ≡ 0 }
    {
        Hold { seconds: 0 }
    }

    // For a time; from 0xFFFFFF on it has no end.
    fn lasting(time: u32) -> Self
        ensures { held result ≡ hold_for time }
    {
        Hold {
            seconds: time.min(0xFFFFFF),
        }
    }

    pub fn is_locked(&self) -> bool
        ensures { result ≡ locked (held self.now) }
    {
        self.seconds > 0
    }

    // Does what is asked.
    pub fn obey(&mut self, locking: Locking)
        ensures { held self.new ≡ obeyed locking (held self.old) }
    {
        *self = match locking {
            Locking::Lock(time) => Hold::lasting(time),
            Locking::Toggle(time) if !self.is_locked() => Hold::lasting(time),
            Locking::Toggle(_) | Locking::Unlock => Hold::free(),
        };
    }

    // A second passes.
    pub fn tick(&mut self)
        ensures { held self.new ≡ ticked (held self.old) }
    {
        if self.seconds != 0 && self.seconds != 0xFFFFFF {
            self.seconds -= 1;
        }
    }

    // The three bytes in the record, high byte first. A running time has the same two lines, in a crate that knows no hold.
    pub fn bytes(&self) -> [u8; 3]
        ensures { result ≡ held self.now / 65536 ∷ held self.now / 256 % 256 ∷ held self.now % 256 ∷ [] }
    {
        let [_, high, mid, low] = self.seconds.to_be_bytes();
        [high, mid, low]
    }
}
