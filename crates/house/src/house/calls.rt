// The calls of a house. A call answers what it did, or the first refusal that applies; a refusal changes nothing.
ghost use Rattle.std.specs.Prelude.{◌≡◌, ◌≤◌, [], length, IfOk, IfErr, OnErr};
ghost use Rattle.house.specs.declared.call.Call.TheVariants.{Put, Push, Second, Step, Clear, Record};
ghost use Rattle.house.specs.Answers.{byte, shown_put, shown_counts, shown_clear};
ghost use Rattle.house.specs.Faults.{fault_of, OkUnless};
ghost use Rattle.house.specs.Houses.{station_of, pending_of, turn_of, TakesTurn};

use super::House;
use crate::built::Built;
use bus::{Frame, Outbox, Refusal};
use station::{Event, Station};
use std::alloc::{AllocFailed, Global};
use std::collections::VecDeque;

impl<S: Station> House<S> {
    // A house over the station, with nothing pending. Where there is no memory, the station comes back.
    pub fn new(heap: Global, station: S) -> Result<House<S>, AllocFailed<S>>
        ensures station { IfOk result (λ h. station_of h ≡ station) }
        ensures pending { IfOk result (λ h. pending_of h ≡ []) }
        ensures refused { IfErr result (λ back. back.value ≡ station) }
    {
        // `?` would not give the station back
        let Ok(pending) = VecDeque::with_capacity(heap, 256) else {
            return Err(AllocFailed { value: station });
        };
        let Ok(outbox) = Outbox::new(heap, 144) else {
            return Err(AllocFailed { value: station });
        };
        Ok(House {
            built: Built::new(station),
            pending,
            outbox,
        })
    }

    /// How many seats there are, from 1 to 16; or the builder's fault (1, 2 or 3), for which every call but `record` is
    /// refused.
    pub fn seats(&self) -> Result<usize, Refusal>
        ensures { OkUnless result (fault_of (S.seats (station_of self.now))) (length (S.seats (station_of self.now))) }
    {
        self.built.seats
    }

    /// How many frames are pending, 256 at most.
    pub fn pending(&self) -> usize
        ensures value { result ≡ length (pending_of self.now) }
        ensures most { result ≤ 256 }
    {
        self.pending.len()
    }

    /// Puts a frame on the bus.
    pub fn put(&mut self, frame: Frame) -> Result<(), Refusal>
        ensures unchanged { OnErr result (self.new ≡ self.old) }
        ensures station { station_of self.new ≡ station_of self.old }
        ensures turn { TakesTurn S.seats (turn_of S.seats self.old (Put frame)) (shown_put result) self.new [] [] }
    {
        self.check_put(&frame)?;
        self.pending.push_back_reserved(frame);
        Ok(())
    }

    // Pushes a button: the edge at the channel of the seat with that address. The edge is a number here, since a tool may
    // hand in any.
    pub fn push(
        &mut self,
        address: u8,
        channel: u8,
        edge: u8,
        buffer: &mut [Frame],
    ) -> Result<(usize, usize), Refusal>
        ensures unchanged { OnErr result (self.new ≡ self.old) }
        ensures turn { TakesTurn S.seats (turn_of S.seats self.old (Push address channel edge (length buffer.old))) (shown_counts result) self.new buffer.old buffer.new }
    {
        let push = self.check_push(address, channel, edge, buffer.len())?;
        Ok(self.act(Event::Pushed(push), buffer))
    }

    // A second passes for every seat. Frames are written to the caller's buffer and their number is answered, since calls
    // take no memory.
    pub fn second(&mut self, buffer: &mut [Frame]) -> Result<(usize, usize), Refusal>
        ensures unchanged { OnErr result (self.new ≡ self.old) }
        ensures turn { TakesTurn S.seats (turn_of S.seats self.old (Second (length buffer.old))) (shown_counts result) self.new buffer.old buffer.new }
    {
        self.check_second(buffer.len())?;
        Ok(self.act(Event::Second, buffer))
    }

    // Takes the frame that waited longest and lets the seats hear it.
    pub fn step(&mut self, buffer: &mut [Frame]) -> Result<(usize, usize), Refusal>
        ensures unchanged { OnErr result (self.new ≡ self.old) }
        ensures turn { TakesTurn S.seats (turn_of S.seats self.old (Step (length buffer.old))) (shown_counts result) self.new buffer.old buffer.new }
    {
        self.check_step(buffer.len())?;
        let frame = self.pending.pop_front().ok_or(Refusal::NothingPending)?;
        Ok(self.act(Event::Heard(frame), buffer))
    }

    // Removes all pending frames; answers how many they were.
    pub fn clear(&mut self) -> Result<usize, Refusal>
        ensures unchanged { OnErr result (self.new ≡ self.old) }
        ensures station { station_of self.new ≡ station_of self.old }
        ensures turn { TakesTurn S.seats (turn_of S.seats self.old Clear) (shown_clear result) self.new [] [] }
    {
        self.seats()?;
        let removed = self.pending();
        self.pending.clear();
        Ok(removed)
    }

    // The byte at a place of the record of the first seat at an address, if there is one. Nothing refuses it.
    pub fn record(&self, address: u8, place: usize) -> Option<u8>
        ensures { TakesTurn S.seats (turn_of S.seats self.now (Record address place)) (byte result) self.now [] [] }
    {
        self.built.station.byte(address, place)
    }
}
