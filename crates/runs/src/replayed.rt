// The replay of a list of calls.
ghost use Rattle.std.specs.Prelude.{◌≡◌, length, IfOk, IfErr};
ghost use Rattle.house.specs.Houses.{station_of, bus_of};
ghost use Rattle.house.specs.Turns.{called};
ghost use Rattle.runs.specs.Runs.{entry, quiet};
ghost use Rattle.runs.specs.Making.{places_of, Made};
ghost use Rattle.runs.specs.Replays.{entries_of, shown_entry, Ran, LeftOff};
ghost use Rattle.runs.specs.Memory.{MemoryLaw};
ghost use Rattle.runs.specs.Isolation.{IsolationLaw};

use crate::entry::Entry;
use crate::performing::{number_sent, perform, places};
use bus::Frame;
use house::{Call, House};
use station::Station;
use std::alloc::{AllocError, AllocFailed, Global};

// The entries of the calls made so far, oldest first, and the house as they left it.
#[derive(Drop)]
pub struct Replayed<S: Station> {
    pub entries: Vec<Entry>,
    pub house: House<S>,
}

// There was no memory for a house, and the station is here again; or none for a further call, and this was done.
#[derive(Drop)]
pub enum Unfinished<S: Station> {
    NoHouse(S),
    Stopped(Replayed<S>),
}

// Makes the calls one after the other on a new house over the station.
#[tactic(auto, using(crate::proofs::Stations::memory_stands))]
pub fn replay<S: Station>(
    heap: Global,
    station: S,
    calls: &[Call],
) -> Result<Replayed<S>, Unfinished<S>>
    ensures done { IfOk result (Ran S.seats station calls.now) }
    ensures unfinished { IfErr result (LeftOff S.seats station calls.now) }
    ensures memory { MemoryLaw (S.seats station) }
    ensures isolation { IsolationLaw (S.seats station) }
{
    let house = match House::new(heap, station) {
        Ok(house) => house,
        Err(AllocFailed { value }) => return Err(Unfinished::NoHouse(value)),
    };
    let mut replay = Replayed {
        entries: Vec::new(heap),
        house,
    };
    for call in calls {
        let Ok(()) = replay.make(heap, *call) else {
            return Err(Unfinished::Stopped(replay));
        };
    }
    Ok(replay)
}

impl<S: Station> Replayed<S> {
    // Makes one call more. Memory for its entry is taken first, so no call is made that could not be noted.
    fn make(&mut self, heap: Global, call: Call) -> Result<(), AllocError>
        ensures made { IfOk result (λ _. Made S.seats call self.old self.new) }
        ensures refused { IfErr result (λ _. (entries_of self.new ≡ entries_of self.old) × (self.new.house ≡ self.old.house)) }
    {
        let buffer = vec![in heap; Frame::default(); places(call)]?;
        self.entries.reserve(1)?;
        let entry = noted(&mut self.house, call, buffer);
        self.entries.push_reserved(entry);
        Ok(())
    }
}

// Makes the call, with a buffer that has the places which the call says. Of the buffer, the frames sent are kept.
fn noted<S: Station>(house: &mut House<S>, call: Call, mut buffer: Vec<Frame>) -> Entry
    requires { length buffer.items ≡ places_of call }
    ensures entry { shown_entry result ≡ entry (bus_of S.seats house.old) call }
    ensures bus { bus_of S.seats house.new ≡ called call (bus_of S.seats house.old) }
{
    let answer = perform(house, call, buffer.as_mut_slice());
    buffer.truncate(number_sent(&answer));
    Entry {
        call,
        answer,
        sent: buffer,
    }
}
