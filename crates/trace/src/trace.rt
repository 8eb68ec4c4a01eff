// A house whose calls are shown. The house makes a call before anything of it is printed, so a failure to print
// changes nothing about what the call did.
ghost use Rattle.std.specs.Prelude.{◌≡◌, ◌⊎◌, [], length, OnOk};
ghost use Rattle.house.specs.declared.call.Call.TheVariants.{Put, Push, Second, Step};
ghost use Rattle.house.specs.Houses.{pending_of, bus_of};
ghost use Rattle.house.specs.Turns.{called};
ghost use Rattle.trace.specs.Traces.{steps, Stepped, Passed, PassedAtMost};

use crate::shown::Shown;
use bus::{Frame, Refusal};
use house::{Call, House};
use runs::Reply;
use station::Station;
use std::alloc::Global;
use std::io;
use words::Modules;

#[derive(Drop)]
pub struct Trace<S: Station + Drop> {
    house: House<S>,
    shown: Shown,
}

// Room for what 16 seats send; no house has more.
const PLACES: usize = 144;

const SECOND: Call = Call::Second { places: PLACES };

const STEP: Call = Call::Step { places: PLACES };

impl<S: Station + Drop> Trace<S> {
    pub fn new(heap: Global, house: House<S>, modules: Modules) -> Self
        ensures house { result.house ≡ house }
        ensures modules { result.shown.modules ≡ modules }
        ensures frames { result.shown.frames.items ≡ [] }
        ensures passed { result.shown.passed ≡ 0 }
    {
        Trace {
            house,
            shown: Shown::new(heap, modules),
        }
    }

    // The frames that came onto the bus so far, oldest first.
    pub fn frames(&self) -> &[Frame]
        ensures { result.now ≡ self.now.shown.frames.items }
    {
        self.shown.frames()
    }

    // Puts a frame. A refusal is printed here, and not passed on; so below.
    pub fn put(&mut self, rt: &HostRuntime, frame: Frame) -> io::Result<()>
        ensures { bus_of S.seats self.new.house ≡ called (Put frame) (bus_of S.seats self.old.house) }
    {
        let answer = self.house.put(frame).map(|()| Reply::Accepted);
        self.shown.show(rt, Call::Put(frame), answer, &[])
    }

    // Pushes a button; the edge is a number, as the house takes it.
    pub fn push(&mut self, rt: &HostRuntime, address: u8, channel: u8, edge: u8) -> io::Result<()>
        ensures { bus_of S.seats self.new.house ≡ called (Push address channel edge 144) (bus_of S.seats self.old.house) }
    {
        let mut buffer = [Frame::default(); PLACES];
        let answer = self.house.push(address, channel, edge, &mut buffer);
        let call = Call::Push {
            address,
            channel,
            edge,
            places: PLACES,
        };
        self.shown
            .show(rt, call, reply(answer), sent(&buffer, answer))
    }

    // Lets a second pass.
    pub fn second(&mut self, rt: &HostRuntime) -> io::Result<()>
        ensures { bus_of S.seats self.new.house ≡ called (Second 144) (bus_of S.seats self.old.house) }
    {
        let mut buffer = [Frame::default(); PLACES];
        let answer = self.house.second(&mut buffer);
        self.shown
            .show(rt, SECOND, reply(answer), sent(&buffer, answer))
    }

    // Lets seconds pass, and says in one line how many. Before that line come the frames that a second sent, with the
    // number of the second; they pass before the next one.
    pub fn pass(&mut self, rt: &HostRuntime, seconds: u32) -> io::Result<()>
        ensures led { PassedAtMost seconds (bus_of S.seats self.old.house) (bus_of S.seats self.new.house) }
        ensures all { OnOk result (Passed seconds (bus_of S.seats self.old.house) (bus_of S.seats self.new.house)) }
    {
        let mut total = 0usize;
        // `n` seconds are over, which is what the proof counts
        for n in 0..seconds {
            total = total.saturating_add(self.pass_one(rt, n + 1, seconds)?);
        }
        println!(rt; "pass  {seconds} seconds, {total} sent")?;
        Ok(())
    }

    // Lets one of so many seconds pass, and then all frames; answers how many the second sent.
    fn pass_one(&mut self, rt: &HostRuntime, n: u32, seconds: u32) -> io::Result<usize>
        ensures { Stepped (called (Second 144) (bus_of S.seats self.old.house)) (bus_of S.seats self.new.house) }
    {
        let sent = self.nth_second(rt, n, seconds)?;
        self.settle(rt)?;
        Ok(sent)
    }

    // Lets one of so many seconds pass; it is shown only where it sends something or is refused.
    fn nth_second(&mut self, rt: &HostRuntime, n: u32, seconds: u32) -> io::Result<usize>
        ensures { bus_of S.seats self.new.house ≡ called (Second 144) (bus_of S.seats self.old.house) }
    {
        let mut buffer = [Frame::default(); PLACES];
        let outcome = self.house.second(&mut buffer);
        let sent = sent(&buffer, outcome);
        if outcome.is_err() || !sent.is_empty() {
            println!(rt; "second {n} of {seconds}")?;
            self.shown.show_answer(rt, SECOND, reply(outcome), sent)?;
        }
        Ok(sent.len())
    }

    // Steps until no frame is pending, 256 times at most; the loop has no index.
    pub fn settle(&mut self, rt: &HostRuntime) -> io::Result<()>
        ensures led { Stepped (bus_of S.seats self.old.house) (bus_of S.seats self.new.house) }
        ensures quiet { OnOk result ((length (pending_of self.new.house) ≡ 0) ⊎ (bus_of S.seats self.new.house ≡ steps 256 (bus_of S.seats self.old.house))) }
    {
        for _ in 0..256u16 {
            if self.house.pending() == 0 {
                return Ok(());
            }
            self.step(rt)?;
        }
        Ok(())
    }

    // Takes the frame that waited longest and lets the seats hear it.
    fn step(&mut self, rt: &HostRuntime) -> io::Result<()>
        ensures { bus_of S.seats self.new.house ≡ called (Step 144) (bus_of S.seats self.old.house) }
    {
        let mut buffer = [Frame::default(); PLACES];
        let answer = self.house.step(&mut buffer);
        self.shown
            .show(rt, STEP, reply(answer), sent(&buffer, answer))
    }
}

// A pair of counts as a reply.
fn reply(answer: Result<(usize, usize), Refusal>) -> Result<Reply, Refusal> {
    answer.map(|(sent, pending)| Reply::Counts { sent, pending })
}

// The frames that were sent, at the front of the buffer.
fn sent(buffer: &[Frame], answer: Result<(usize, usize), Refusal>) -> &[Frame] {
    let number = answer.map_or(0, |(sent, _)| sent);
    buffer.get(..number).unwrap_or(&[])
}
