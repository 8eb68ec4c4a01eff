// Shows how a button of a panel switches a relay, frame by frame.
#![tactic(auto)]

mod told;

use bus::{Frame, Refusal};
use clap::Command;
use cli::Error;
use house::House;
use kinds::{new_panel, new_relay};
use module::Seat;
use panel::{Panel, PanelSetup};
use relay::{PerChannel, Relay, RelaySetup, Timers};
use station::{Edge, Rail, Sieve};
use std::alloc::{AllocError, Global};
use std::collections::BTreeMap;
use std::io;
use std::process::ExitCode;
use terms::ModuleType;
use told::Told;
use trace::Trace;
use words::Numbers;

const NAME: &str = "press";

const ABOUT: &str = "Shows how a button of a panel switches a relay, frame by frame.";

const PANEL: u8 = 0x20;

const RELAY: u8 = 0x10;

// Room for what two seats send.
const PLACES: usize = 18;

// The panel stands before the relay, which is under a sieve.
type Modules = Rail<Seat<Panel>, Sieve<Seat<Relay>>>;

fn modules() -> Modules {
    let timers = Timers {
        first: 1,
        second: 1,
    };
    let setup = RelaySetup {
        timers: PerChannel {
            one: timers,
            two: timers,
            three: timers,
            four: timers,
        },
    };
    Rail {
        first: new_panel(PANEL, PanelSetup { year: 1, week: 1 }),
        second: Sieve {
            below: new_relay(RELAY, setup),
        },
    }
}

fn main(rt: HostRuntime) -> ExitCode {
    cli::end(&rt, NAME, run(&rt))
}

fn run(rt: &HostRuntime) -> cli::Result<()> {
    let words = cli::words(rt)?;
    let all = Command::new(rt.alloc(), "all").about(
        "Show two presses, what is refused, seconds that pass, and lamps that blink",
    );
    let command = cli::command(rt.alloc(), NAME, ABOUT)?.subcommand(all)?;
    let matches = cli::matches(rt.alloc(), command, words.as_slice())?;
    let house = House::new(rt.alloc(), modules())?;
    if matches.subcommand_name() == Some("all") {
        show_all(rt, house)?;
    } else {
        show_press(rt, house)?;
    }
    Ok(())
}

// The frame that links button 1 of the panel to channel 1 of the relay.
fn link() -> Frame {
    Frame::new(3, RELAY, 7, [0xCA, 0x00, 0x3C, PANEL, 0x01, 0xFF, 0xFF, 0])
}

// The house with its calls shown.
fn traced(heap: Global, house: House<Modules>) -> Result<Trace<Modules>, AllocError> {
    let kinds = [(PANEL, ModuleType::Panel), (RELAY, ModuleType::Relay)];
    let kinds = BTreeMap::from_array(heap, kinds)?;
    Ok(Trace::new(heap, house, kinds))
}

// One press and what comes of it; the link is written before.
fn show_press(rt: &HostRuntime, mut house: House<Modules>) -> cli::Result<()> {
    write_link(&mut house).map_err(|refusal| Error::failed(rt.alloc(), refusal))?;
    let mut trace = traced(rt.alloc(), house)?;
    println!(rt;
        "A panel is at address 20, a relay at 10. Button 1 of the panel toggles channel 1 of the relay."
    )?;
    push(rt, &mut trace, Edge::Press)?;
    trace.settle(rt)?;
    Ok(())
}

// The frame that writes the link passes, and then the relay's answer.
fn write_link(house: &mut House<Modules>) -> Result<(), Refusal> {
    let mut sent = [Frame::default(); PLACES];
    house.put(link())?;
    house.step(&mut sent)?;
    house.step(&mut sent)?;
    Ok(())
}

// Two presses, and all else that this house is asked to do.
fn show_all(rt: &HostRuntime, house: House<Modules>) -> io::Result<()> {
    let mut trace = traced(rt.alloc(), house)?;
    println!(rt; "A panel at 20 and a relay at 10 stand on one bus.")?;
    println!(rt; "Button 1 of the panel goes into the toggle table of channel 1.")?;
    trace.put(rt, link())?;
    trace.settle(rt)?;
    press(rt, &mut trace)?;
    press(rt, &mut trace)?;
    run_out(rt, &mut trace)
}

fn push(rt: &HostRuntime, trace: &mut Trace<Modules>, edge: Edge) -> io::Result<()> {
    trace.push(rt, PANEL, 1, edge as u8)
}

// Presses button 1, lets all frames pass, releases it, and asks.
fn press(rt: &HostRuntime, trace: &mut Trace<Modules>) -> io::Result<()> {
    println!(rt; "Button 1 is pressed, and released too soon for the bench.")?;
    push(rt, trace, Edge::Press)?;
    push(rt, trace, Edge::Release)?;
    trace.settle(rt)?;
    println!(rt; "Button 1 is released.")?;
    push(rt, trace, Edge::Release)?;
    trace.settle(rt)?;
    ask(rt, trace)
}

// Asks what is closed and what shines.
fn ask(rt: &HostRuntime, trace: &mut Trace<Modules>) -> io::Result<()> {
    println!(rt; "The modules are asked for their status.")?;
    command(rt, trace, RELAY, [0xFA, 0x0F, 0, 0, 0, 0, 0, 0])?;
    command(rt, trace, PANEL, [0xFA, 0xFF, 0, 0, 0, 0, 0, 0])?;
    sum_up(rt, &Told::by(trace.frames()))
}

// A command of two bytes; all frames pass.
fn command(
    rt: &HostRuntime,
    trace: &mut Trace<Modules>,
    address: u8,
    bytes: [u8; 8],
) -> io::Result<()> {
    trace.put(rt, Frame::new(3, address, 2, bytes))?;
    trace.settle(rt)
}

// Has channel 2 run for 2 seconds and two lamps blink. The first second comes too soon.
fn run_out(rt: &HostRuntime, trace: &mut Trace<Modules>) -> io::Result<()> {
    println!(rt;
        "Channel 2 is to be closed for 2 seconds. A second that comes too soon is refused; one passes."
    )?;
    let run = [0x03, 0x02, 0, 0, 2, 0, 0, 0];
    trace.put(rt, Frame::new(3, RELAY, 5, run))?;
    trace.pass(rt, 2)?;
    println!(rt; "Lamps 2 and 3 are to blink.")?;
    command(rt, trace, PANEL, [0xF7, 0x02, 0, 0, 0, 0, 0, 0])?;
    command(rt, trace, PANEL, [0xF8, 0x04, 0, 0, 0, 0, 0, 0])?;
    ask(rt, trace)?;
    println!(rt; "Two more seconds pass; with the first of them the time is over.")?;
    trace.pass(rt, 2)?;
    sum_up(rt, &Told::by(trace.frames()))
}

// Says which contacts are closed and which lamps shine.
fn sum_up(rt: &HostRuntime, told: &Told) -> io::Result<()> {
    let closed = Numbers(told.contacts);
    let lamps_on = Numbers(told.lamps_on);
    println!(rt; "Contacts closed: {closed}. Lamps shining: {lamps_on}.")?;
    Ok(())
}
