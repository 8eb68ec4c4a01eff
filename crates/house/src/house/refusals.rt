// What refuses each call, in order.
ghost use Rattle.std.specs.Prelude.{[], ◌∷◌, length};
ghost use Rattle.house.specs.declared.call.Call.TheVariants.{Put, Push as PushCall, Second, Step};
ghost use Rattle.house.specs.Faults.{first_refusal, OkUnless};
ghost use Rattle.house.specs.Turns.{acting, busy, edge_of, NumbersRise, SmallestFirst};
ghost use Rattle.house.specs.Houses.{station_of, pending_of, refusal_of};

use super::House;
use bus::{Frame, Refusal};
use station::{Edge, Push, Station};

impl<S: Station> House<S> {
    // Whether the frame may be put.
    pub(super) fn check_put(&self, frame: &Frame) -> Result<(), Refusal>
        ensures { OkUnless result (refusal_of S.seats self.now (Put frame.now)) tt }
    {
        self.seats()?;
        if !frame.is_well_formed() {
            return Err(Refusal::IllFormedFrame);
        }
        self.check_quiet()
    }

    // The push that the numbers mean, if it may be made with that many places for what is sent.
    pub(super) fn check_push(
        &self,
        address: u8,
        channel: u8,
        edge: u8,
        places: usize,
    ) -> Result<Push, Refusal>
        ensures { OkUnless result (refusal_of S.seats self.now (PushCall address channel edge places)) (record { address = address; channel = channel; edge = edge_of edge }) }
    {
        self.seats_to_act(places)?;
        if self.built.station.standing(address) == 0 {
            return Err(Refusal::NoSuchSeat);
        }
        if channel == 0 || channel > self.built.station.buttons(address) {
            return Err(Refusal::NoSuchButton);
        }
        let edge = Edge::try_from(edge)?;
        self.check_quiet()?;
        Ok(Push {
            address,
            channel,
            edge,
        })
    }

    // Whether a second may pass with that many places.
    pub(super) fn check_second(&self, places: usize) -> Result<(), Refusal>
        ensures { OkUnless result (refusal_of S.seats self.now (Second places)) tt }
    {
        self.seats_to_act(places)?;
        self.check_quiet()
    }

    // Whether a step may be made with that many places.
    pub(super) fn check_step(&self, places: usize) -> Result<(), Refusal>
        ensures { OkUnless result (refusal_of S.seats self.now (Step places)) tt }
    {
        let seats = self.seats_to_act(places)?;
        let pending = self.pending();
        if pending == 0 {
            return Err(Refusal::NothingPending);
        }
        if pending - 1 + 9 * seats > 256 {
            return Err(Refusal::NoRoom);
        }
        Ok(())
    }

    // The number of seats, if they may act with that many places.
    fn seats_to_act(&self, places: usize) -> Result<usize, Refusal>
        ensures { OkUnless result (first_refusal (acting (S.seats (station_of self.now)) places)) (length (S.seats (station_of self.now))) }
    {
        let seats = self.seats()?;
        if places < 9 * seats {
            return Err(Refusal::ShortBuffer);
        }
        Ok(seats)
    }

    // Some calls need a quiet house.
    fn check_quiet(&self) -> Result<(), Refusal>
        ensures { OkUnless result (first_refusal (busy (pending_of self.now) ∷ [])) tt }
    {
        if self.pending() > 0 {
            return Err(Refusal::NotQuiet);
        }
        Ok(())
    }
}

// The numbers are looked at from the smallest up, so the smallest that applies is answered.
pub fn smallest_refusal_first() -> u8
    ensures rises { NumbersRise }
    ensures smallest { SmallestFirst }
{
    0
}
