// The bytes of a button interface's record.
ghost use Rattle.std.specs.Prelude.{◌≡◌, ◌++◌};
ghost use Rattle.station.specs.Seats.{nth};
ghost use Rattle.interface.specs.States.{encoded, state_of, cells_of};

use crate::interface::Interface;
use crate::records::CELLS;
use module::{Lamps, byte_at};

impl Interface {
    // The state bytes: lamps, pressed buttons, the holds, and the time. A line a hold: with `map` over the holds the check did
    // not end.
    fn state(&self) -> [u8; 32]
        ensures { result ≡ encoded (state_of self.now) }
    {
        let Lamps { on, slow, fast } = self.lamps;
        let [one, two, three, four, five, six, seven, eight] = self.holds.channels;
        let [a0, a1, a2] = one.bytes();
        let [b0, b1, b2] = two.bytes();
        let [c0, c1, c2] = three.bytes();
        let [d0, d1, d2] = four.bytes();
        let [e0, e1, e2] = five.bytes();
        let [f0, f1, f2] = six.bytes();
        let [g0, g1, g2] = seven.bytes();
        let [h0, h1, h2] = eight.bytes();
        let [day, hour, minute, second] = self.clock.bytes();
        [
            on,
            slow,
            fast,
            self.buttons.pressed,
            a0,
            a1,
            a2,
            b0,
            b1,
            b2,
            c0,
            c1,
            c2,
            d0,
            d1,
            d2,
            e0,
            e1,
            e2,
            f0,
            f1,
            f2,
            g0,
            g1,
            g2,
            h0,
            h1,
            h2,
            day,
            hour,
            minute,
            second,
        ]
    }

    // The byte at a place of the record: the cells, then the state bytes. For a cell these are not made.
    #[tactic(auto, using(module::proofs::Bytes::nth_left, module::proofs::Bytes::nth_right))]
    pub fn byte(&self, place: usize) -> Option<u8>
        ensures { result ≡ nth place (cells_of self.now ++ encoded (state_of self.now)) }
    {
        if place < CELLS {
            Some(self.records.memory.read(place))
        } else {
            byte_at(&self.state(), place - CELLS)
        }
    }
}
