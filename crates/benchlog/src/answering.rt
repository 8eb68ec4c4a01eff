// How a bench answers an item.
ghost use Rattle.std.specs.Prelude.{◌≡◌, ◌+◌, ◌*◌, ◌≤◌, [], ◌∷◌, length, IfOk, IfErr};
ghost use Rattle.bus.specs.Refusals.{number, refusal_number};
ghost use Rattle.station.specs.Seats.{first_byte};
ghost use Rattle.house.specs.Faults.{first_number, OkUnless};
ghost use Rattle.house.specs.Houses.{station_of};
ghost use Rattle.house.specs.Turns.{called, copied_in};
ghost use Rattle.runs.specs.Runs.{quiet};
ghost use Rattle.benchlog.specs.Items.{shown_item, recorded};
ghost use Rattle.benchlog.specs.Bytes.{served_bytes};
ghost use Rattle.benchlog.specs.Benches.{bench_bus, item_bytes, answer_checks, answer_refusal, AnswerNumbersRise, AnswersItem, RefusedItems};

use crate::bench::Bench;
use crate::item::Item;
use crate::putting::tagged;
use bus::{Frame, Refusal};
use house::House;
use runs::{number_sent, perform};
use station::Station;
use std::alloc::{AllocFailed, Global};

// Writes the answer to an item that was served: the frames sent, each after 0x81, and 0x80. Answers how many bytes.
fn write_served(sent: &[Frame], buffer: &mut [u8]) -> usize
    requires { 13 * length sent.now + 1 ≤ length buffer.old }
    ensures count { result ≡ length (served_bytes sent.now) }
    ensures bytes { buffer.new ≡ copied_in (served_bytes sent.now) buffer.old }
{
    let mut at = 0;
    for frame in sent {
        buffer[at..at + 13].copy_from_slice(&tagged(0x81, frame));
        at += 13;
    }
    buffer[at] = 0x80;
    at + 1
}

// Writes the answer to an item that was refused.
fn write_refused(refusal: Refusal, buffer: &mut [u8]) -> usize
    requires { 360 ≤ length buffer.old }
    ensures count { result ≡ 2 }
    ensures bytes { buffer.new ≡ copied_in (0x82 ∷ number refusal ∷ []) buffer.old }
{
    buffer[0] = 0x82;
    buffer[1] = refusal.number();
    2
}

impl<S: Station> Bench<S> {
    // A bench over a new house. Where there is no memory, the station comes back.
    pub fn new(heap: Global, station: S) -> Result<Self, AllocFailed<S>>
        ensures quiet { IfOk result (λ b. bench_bus S.seats b ≡ quiet (S.seats station)) }
        ensures station { IfOk result (λ b. station_of b.house ≡ station) }
        ensures refused { IfErr result (λ back. back.value ≡ station) }
    {
        let house = House::new(heap, station)?;
        Ok(Bench {
            house,
            frames: [Frame::default(); 27],
        })
    }

    // Makes the call that an item records, and writes the answer to the front of a buffer, which has the places.
    pub(crate) fn write_answer(&mut self, item: &Item<'_>, buffer: &mut [u8]) -> usize
        requires { 360 ≤ length buffer.old }
        ensures bus { bench_bus S.seats self.new ≡ called (recorded (shown_item item.now)) (bench_bus S.seats self.old) }
        ensures count { result ≡ length (item_bytes (bench_bus S.seats self.old) (shown_item item.now)) }
        ensures bytes { buffer.new ≡ copied_in (item_bytes (bench_bus S.seats self.old) (shown_item item.now)) buffer.old }
    {
        let answer = perform(&mut self.house, item.call(), &mut self.frames[..]);
        match answer {
            Ok(_) => write_served(&self.frames[..number_sent(&answer)], buffer),
            Err(refusal) => write_refused(refusal, buffer),
        }
    }

    /// Answers an item at the front of a buffer with 360 places or more, and says by how many bytes: the frames sent, each
    /// after 0x81, and then 0x80, or 0x82 and the number of a refusal.
    ///
    /// # Errors
    ///
    /// Of a shorter buffer: the builder's fault (1, 2 or 3) if the house has one, else 4. Nothing happens then.
    #[tactic(auto, using(crate::proofs::Served::refused_items, crate::proofs::Served::answer_numbers_rise))]
    pub fn answer(&mut self, item: &Item<'_>, buffer: &mut [u8]) -> Result<usize, Refusal>
        ensures refusals { RefusedItems }
        ensures number { refusal_number result ≡ first_number (answer_checks (bench_bus S.seats self.old).seats (length buffer.old)) }
        ensures rises { AnswerNumbersRise }
        ensures answer { AnswersItem S.seats (shown_item item.now) result self.old self.new buffer.old buffer.new }
    {
        self.check_answer(buffer.len())?;
        Ok(self.write_answer(item, buffer))
    }

    // Refuses a buffer with fewer than 360 places.
    fn check_answer(&self, places: usize) -> Result<(), Refusal>
        ensures { OkUnless result (answer_refusal (bench_bus S.seats self.now).seats places) tt }
    {
        if places < 360 {
            self.house.seats()?;
            return Err(Refusal::ShortBuffer);
        }
        Ok(())
    }

    // The byte at a place of the record of the first seat at an address, if there is one.
    pub fn record(&self, address: u8, place: usize) -> Option<u8>
        ensures { result ≡ first_byte address place (bench_bus S.seats self.now).seats }
    {
        self.house.record(address, place)
    }
}
