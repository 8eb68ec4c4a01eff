// How calls are shown: a few lines for each call, with every frame in hexadecimal and in words.
ghost use Rattle.std.specs.Prelude.{◌≡◌, [], ◌++◌, length, OnOk};
ghost use Rattle.trace.specs.Noted.{frame_put, arrived, passed_after, passed_by};

use bus::{Frame, Refusal};
use house::Call;
use runs::Reply;
use std::alloc::Global;
use std::io;
use terms::edge_name;
use words::{HexAndWords, Modules};

// The kinds of the modules by address, the frames in the order in which they came onto the bus, and how many of them
// passed.
#[derive(Drop)]
pub struct Shown {
    pub modules: Modules,
    frames: Vec<Frame>,
    passed: usize,
}

impl Shown {
    // Of a new house.
    pub fn new(heap: Global, modules: Modules) -> Self
        ensures modules { result.modules ≡ modules }
        ensures frames { result.frames.items ≡ [] }
        ensures passed { result.passed ≡ 0 }
    {
        Shown {
            modules,
            frames: Vec::new(heap),
            passed: 0,
        }
    }

    // The frames that came onto the bus so far, oldest first.
    pub fn frames(&self) -> &[Frame]
        ensures { result.now ≡ self.now.frames.items }
    {
        self.frames.as_slice()
    }

    // Shows a call, its answer, and the frames that were sent.
    pub fn show(
        &mut self,
        rt: &HostRuntime,
        call: Call,
        answer: Result<Reply, Refusal>,
        sent: &[Frame],
    ) -> io::Result<()>
        ensures modules { self.new.modules ≡ self.old.modules }
        ensures frames { OnOk result (self.new.frames.items ≡ self.old.frames.items ++ arrived call answer sent.now) }
        ensures passed { OnOk result (self.new.passed ≡ passed_by call answer (length self.old.frames.items) self.old.passed) }
    {
        self.show_call(rt, call)?;
        self.show_answer(rt, call, answer, sent)
    }

    // The line of a call: for a step, with the frame that waited longest.
    fn show_call(&self, rt: &HostRuntime, call: Call) -> io::Result<()> {
        match call {
            Call::Put(frame) => return self.line(rt, "put", frame),
            Call::Push {
                address,
                channel,
                edge,
                ..
            } => {
                let name = edge_name(edge);
                println!(rt;
                    "push  address {address:02X}, channel {channel}, edge {edge} ({name})"
                )?
            }
            Call::Second { .. } => println!(rt; "second")?,
            Call::Step { .. } => match self.frames.get(self.passed) {
                Some(frame) => return self.line(rt, "step", *frame),
                None => println!(rt; "step")?,
            },
            Call::Clear => println!(rt; "clear")?,
            Call::Record { address, place } => {
                println!(rt; "record address {address:02X}, place {place}")?
            }
        }
        Ok(())
    }

    // What was answered, a refusal too, and each frame that was sent.
    pub(crate) fn show_answer(
        &mut self,
        rt: &HostRuntime,
        call: Call,
        answer: Result<Reply, Refusal>,
        sent: &[Frame],
    ) -> io::Result<()>
        ensures modules { self.new.modules ≡ self.old.modules }
        ensures frames { OnOk result (self.new.frames.items ≡ self.old.frames.items ++ arrived call answer sent.now) }
        ensures passed { OnOk result (self.new.passed ≡ passed_by call answer (length self.old.frames.items) self.old.passed) }
    {
        match answer {
            Ok(reply) => {
                self.note(call)?;
                show_reply(rt, reply)?;
                self.show_sent(rt, sent)
            }
            Err(refusal) => refused(rt, refusal),
        }
    }

    // Each frame that was sent.
    fn show_sent(&mut self, rt: &HostRuntime, sent: &[Frame]) -> io::Result<()>
        ensures modules { self.new.modules ≡ self.old.modules }
        ensures frames { OnOk result (self.new.frames.items ≡ self.old.frames.items ++ sent.now) }
        ensures passed { self.new.passed ≡ self.old.passed }
    {
        for frame in sent {
            self.line(rt, "sent", *frame)?;
            self.frames.push(*frame)?;
        }
        Ok(())
    }

    // Which frames came onto the bus or passed by a call that was served.
    fn note(&mut self, call: Call) -> io::Result<()>
        ensures modules { self.new.modules ≡ self.old.modules }
        ensures frames { OnOk result (self.new.frames.items ≡ self.old.frames.items ++ frame_put call) }
        ensures passed { OnOk result (self.new.passed ≡ passed_after call (length self.old.frames.items) self.old.passed) }
    {
        match call {
            Call::Put(frame) => self.frames.push(frame)?,
            Call::Step { .. } if self.passed < self.frames.len() => self.passed += 1,
            Call::Clear => self.passed = self.frames.len(),
            Call::Push { .. } | Call::Second { .. } | Call::Step { .. } | Call::Record { .. } => {}
        }
        Ok(())
    }

    // A line with what happens to a frame, the frame, and the frame in words.
    fn line(&self, rt: &HostRuntime, what: &str, frame: Frame) -> io::Result<()> {
        let told = HexAndWords {
            modules: &self.modules,
            frame,
        };
        println!(rt; "{what:6}{told}")?;
        Ok(())
    }
}

// Tells that a call was refused.
fn refused(rt: &HostRuntime, refusal: Refusal) -> io::Result<()> {
    let number = refusal.number();
    println!(rt; "      refused with {number}: {refusal}")?;
    Ok(())
}

// Tells what a call answered.
fn show_reply(rt: &HostRuntime, reply: Reply) -> io::Result<()> {
    match reply {
        Reply::Accepted => println!(rt; "      accepted")?,
        Reply::Counts { sent, pending } => println!(rt; "      {sent} sent, {pending} pending")?,
        Reply::Cleared(removed) => println!(rt; "      {removed} cleared")?,
        Reply::Byte(Some(byte)) => println!(rt; "      {byte:02X}")?,
        Reply::Byte(None) => println!(rt; "      no byte")?,
    }
    Ok(())
}
