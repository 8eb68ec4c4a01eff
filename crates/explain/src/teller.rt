// How the items of a log are told: what is done, and under it what comes of it.
use crate::advice::Advice;
use crate::lines::{FURTHER_IN, item, under};
use crate::note::Note;
use crate::outcome::Outcome;
use crate::quiet::{Quiet, is_quiet};
use bus::{Frame, Refusal};
use house::Call;
use std::alloc::Global;
use std::collections::VecDeque;
use std::io;
use terms::edge_name;
use words::{CellLines, InWords, Modules, Named};

// The modules by their addresses, the frames that wait, the quiet seconds that are still to be told, and whether steps at
// which nothing is sent are left out.
#[derive(Drop)]
pub struct Teller {
    pub modules: Modules,
    waiting: VecDeque<Frame>,
    quiet: Option<Quiet>,
    is_brief: bool,
}

impl Teller {
    pub fn new(heap: Global, modules: Modules, is_brief: bool) -> Self {
        Teller {
            modules,
            waiting: VecDeque::new(heap),
            quiet: None,
            is_brief,
        }
    }

    // Tells what comes of an item.
    pub fn tell(&mut self, rt: &HostRuntime, outcome: &Outcome<'_>) -> io::Result<()> {
        if is_quiet(outcome) {
            self.quiet = Some(Quiet::and(self.quiet, outcome.place));
            return Ok(());
        }
        self.tell_quiet(rt)?;
        if !self.is_left_out(outcome) {
            self.tell_call(rt, outcome)?;
        }
        match outcome.answer {
            Ok(_) => self.tell_sent(rt, outcome),
            Err(refusal) => self.tell_refused(rt, outcome.call, refusal),
        }
    }

    // Whether it is a step that was served, at which nothing was sent, and such steps are left out.
    fn is_left_out(&self, outcome: &Outcome<'_>) -> bool {
        self.is_brief && matches!(outcome.call, Call::Step { .. }) && outcome.is_silent()
    }

    // Tells the quiet seconds that were not told yet.
    pub fn tell_quiet(&mut self, rt: &HostRuntime) -> io::Result<()> {
        match self.quiet.take() {
            Some(quiet) => quiet.tell(rt),
            None => Ok(()),
        }
    }

    // The line of a call; for a step, with the frame that waited longest. What a written frame means stands under it.
    fn tell_call(&self, rt: &HostRuntime, outcome: &Outcome<'_>) -> io::Result<()> {
        let place = outcome.place;
        let note = Note(*outcome);
        match outcome.call {
            Call::Put(frame) => {
                let spoken = self.spoken(frame);
                item(rt, place, "put", format_args!("{spoken}{note}"))?;
                self.tell_cells(rt, &frame)
            }
            Call::Push {
                address,
                channel,
                edge,
                ..
            } => {
                let named = self.named(address);
                let edge = edge_name(edge);
                let words = format_args!("button {channel} of {named}: {edge}{note}");
                item(rt, place, "push", words)
            }
            Call::Second { .. } => item(rt, place, "second", "time passes: 1 s"),
            Call::Step { .. } => match self.waiting.front() {
                Some(frame) => {
                    let spoken = self.spoken(*frame);
                    item(rt, place, "step", format_args!("{spoken}{note}"))
                }
                None => item(rt, place, "step", "no frame waits"),
            },
            Call::Clear => item(rt, place, "clear", format_args!("the bus{note}")),
            Call::Record { .. } => Ok(()),
        }
    }

    // Each frame that was sent, and what the cells mean that it tells of.
    fn tell_sent(&mut self, rt: &HostRuntime, outcome: &Outcome<'_>) -> io::Result<()> {
        // a reply to a write repeats what was written
        let told = self
            .pass(outcome.call)?
            .is_some_and(|passing| passing.is_command(0xCA, 7));
        for frame in outcome.sent {
            let spoken = self.spoken(*frame);
            under(rt, format_args!("sent  {spoken}"))?;
            if !told {
                self.tell_cells(rt, frame)?;
            }
            self.waiting.push_back(*frame)?;
        }
        Ok(())
    }

    // Lets a call that was served add frames to the waiting ones or take them; a step answers the one that passes.
    fn pass(&mut self, call: Call) -> io::Result<Option<Frame>> {
        match call {
            Call::Put(frame) => self.waiting.push_back(frame)?,
            Call::Step { .. } => return Ok(self.waiting.pop_front()),
            Call::Clear => self.waiting.clear(),
            Call::Push { .. } | Call::Second { .. } | Call::Record { .. } => {}
        }
        Ok(None)
    }

    fn tell_refused(&self, rt: &HostRuntime, call: Call, refusal: Refusal) -> io::Result<()> {
        let number = refusal.number();
        let advice = Advice {
            modules: &self.modules,
            call,
            refusal,
            waiting: self.waiting.len(),
        };
        under(
            rt,
            format_args!("refused with {number}: {refusal} ({advice})"),
        )
    }

    // What the cells mean that a frame writes or tells of.
    fn tell_cells(&self, rt: &HostRuntime, frame: &Frame) -> io::Result<()> {
        let cells = CellLines {
            modules: &self.modules,
            frame,
            margin: FURTHER_IN,
        };
        print!(rt; "{cells}")?;
        Ok(())
    }

    fn spoken(&self, frame: Frame) -> InWords<'_> {
        InWords {
            modules: &self.modules,
            frame,
        }
    }

    fn named(&self, address: u8) -> Named<'_> {
        Named {
            modules: &self.modules,
            address,
        }
    }
}
