// Explains a log: tells in words what was done on the bus and what came of it.
#![tactic(auto)]

mod advice;
mod ending;
mod lines;
mod note;
mod options;
mod outcome;
mod plan;
mod quiet;
mod state;
mod teller;

use benchlog::Reader;
use bus::Frame;
use cli::{Error, Source};
use ending::{is_cut_by_limit, tell_fault, tell_states};
use house::House;
use input::{LIMIT, read_any};
use kinds::bench_modules;
use options::{Options, command};
use outcome::Outcome;
use plan::{PLACES, PLAN};
use std::collections::BTreeMap;
use std::io;
use std::process::ExitCode;
use teller::Teller;

const HEADING: &str = "\
On the bus: relay 10 (VMB4RY), button interface 20 (VMB8PBU), panel 30 (VMB4PD).
A frame is a message on the bus. Put: a tool's frame joins those that wait. Step: the frame that waited longest
passes, and all modules hear it. Sent: a module sends a frame, which then waits too. In front of each item
stands its place in the log.";

const BRIEFLY: &str = "Steps at which no module sent anything are left out.";

fn main(rt: HostRuntime) -> ExitCode {
    cli::end(&rt, "explain", run(&rt))
}

fn run(rt: &HostRuntime) -> cli::Result<()> {
    let heap = rt.alloc();
    let words = cli::words(rt)?;
    let matches = cli::matches(heap, command(heap)?, words.as_slice())?;
    let options = Options::of(&matches);
    let log = read(rt, options.file)?;
    let is_served = explain(rt, log.as_slice(), options.is_brief)?;
    if options.is_strict && !is_served {
        return Err(Error::Strict);
    }
    Ok(())
}

fn read(rt: &HostRuntime, file: Option<&str>) -> cli::Result<Vec<u8>> {
    let heap = rt.alloc();
    let source = Source::open(rt, file)?;
    let name = source.name;
    let log = read_any(heap, source).map_err(|error| error.named(heap, name))?;
    if log.len() == LIMIT {
        // the log is told also where this cannot be said
        let _ = eprintln!(rt;
            "explain: read {LIMIT} bytes of the log, the most that is read; more, if any follows, was not read"
        );
    }
    Ok(log)
}

// What stands above the items.
fn tell_heading(rt: &HostRuntime, is_brief: bool) -> io::Result<()> {
    println!(rt; "{HEADING}")?;
    if is_brief {
        println!(rt; "{BRIEFLY}")?;
    }
    println!(rt; "")
}

// Tells a log, and answers whether each item was served and the log is not faulty.
fn explain(rt: &HostRuntime, log: &[u8], is_brief: bool) -> cli::Result<bool> {
    let mut house = House::new(rt.alloc(), bench_modules())?;
    let modules = BTreeMap::from_array(rt.alloc(), PLAN)?;
    let mut teller = Teller::new(rt.alloc(), modules, is_brief);
    let mut buffer = [Frame::default(); PLACES];
    let mut is_served = true;
    tell_heading(rt, is_brief)?;
    for found in Reader::new(log) {
        match found {
            Ok(item) => {
                let outcome = Outcome::of(&mut house, &teller.modules, &item, &mut buffer[..]);
                teller.tell(rt, &outcome)?;
                is_served &= outcome.answer.is_ok();
            }
            Err(fault) => {
                teller.tell_quiet(rt)?;
                tell_fault(rt, log, fault)?;
                is_served &= is_cut_by_limit(log, fault);
            }
        }
    }
    teller.tell_quiet(rt)?;
    tell_states(rt, &house)?;
    Ok(is_served)
}
