// Shows how a button of a panel locks a channel of a button interface, which is free again when the time is over.
#![tactic(auto)]

use bus::Frame;
use buttons::ButtonInterface;
use house::House;
use interface::{InterfaceSetup, Serial};
use kinds::{new_button_interface, new_panel};
use module::Seat;
use panel::{Panel, PanelSetup};
use station::{Edge, Rail};
use std::collections::BTreeMap;
use std::process::ExitCode;
use terms::ModuleType;
use trace::Trace;

const PANEL: u8 = 0x30;

const INTERFACE: u8 = 0x20;

type Modules = Rail<Seat<Panel>, Seat<ButtonInterface>>;

fn modules() -> Modules {
    let setup = InterfaceSetup {
        serial: Serial { high: 1, low: 1 },
        map: 1,
        year: 1,
        week: 1,
    };
    Rail {
        first: new_panel(PANEL, PanelSetup { year: 1, week: 1 }),
        second: new_button_interface(INTERFACE, setup),
    }
}

const ABOUT: &str =
    "Shows how a button of a panel locks a channel of a button interface, call by call";

fn main(rt: HostRuntime) -> ExitCode {
    cli::end(&rt, "hold", run(&rt))
}

// What is seated, and as what it is shown, is the program's own.
fn run(rt: &HostRuntime) -> cli::Result<()> {
    cli::no_arguments(rt, "hold", ABOUT)?;
    let house = House::new(rt.alloc(), modules()).map_err(|_| cli::Error::NoMemory)?;
    let kinds = [(PANEL, ModuleType::Panel), (INTERFACE, ModuleType::Buttons)];
    let kinds = BTreeMap::from_array(rt.alloc(), kinds)?;
    let mut trace = Trace::new(rt.alloc(), house, kinds);
    println!(rt; "A panel at 30 and a button interface at 20 stand on one bus.")?;
    link(rt, &mut trace)?;
    lock(rt, &mut trace)?;
    wait(rt, &mut trace)?;
    use_again(rt, &mut trace)
}

// Asks something of the button interface, and lets all frames pass.
fn ask(rt: &HostRuntime, trace: &mut Trace<Modules>, count: u8, bytes: [u8; 8]) -> cli::Result<()> {
    trace.put(rt, Frame::new(3, INTERFACE, count, bytes))?;
    Ok(trace.settle(rt)?)
}

// Pushes button 1 of a module, and lets all frames pass.
fn push(rt: &HostRuntime, trace: &mut Trace<Modules>, address: u8, edge: Edge) -> cli::Result<()> {
    trace.push(rt, address, 1, edge as u8)?;
    Ok(trace.settle(rt)?)
}

// Writes the link record: the panel's address, button 1, action 3 (lock), time code 0x78 (120 s), channel 1.
fn link(rt: &HostRuntime, trace: &mut Trace<Modules>) -> cli::Result<()> {
    println!(rt;
        "Link record 0 of the interface: button 1 of the panel locks channel 1 for 2 minutes."
    )?;
    let record = [0xCA, 0x01, 0x00, PANEL, 0x01, 0x03, 0x78, 0];
    ask(rt, trace, 7, record)?;
    ask(rt, trace, 4, [0xFC, 0x01, 0x04, 0x01, 0, 0, 0, 0])
}

// Locks the channel, and shows that it is locked.
fn lock(rt: &HostRuntime, trace: &mut Trace<Modules>) -> cli::Result<()> {
    println!(rt; "Button 1 of the panel is pressed and released.")?;
    push(rt, trace, PANEL, Edge::Press)?;
    push(rt, trace, PANEL, Edge::Release)?;
    println!(rt; "The interface is asked for its status: channel 1 is locked.")?;
    ask(rt, trace, 2, [0xFA, 0xFF, 0, 0, 0, 0, 0, 0])?;
    println!(rt;
        "Button 1 of the interface is pressed: its channel is locked, so nothing is sent."
    )?;
    push(rt, trace, INTERFACE, Edge::Press)
}

// Lets the 2 minutes pass, the last three seconds one by one.
fn wait(rt: &HostRuntime, trace: &mut Trace<Modules>) -> cli::Result<()> {
    println!(rt; "Almost 2 minutes pass.")?;
    trace.pass(rt, 117)?;
    for left in [3, 2, 1] {
        println!(rt;
            "Seconds left: {left}. Button 1 of the interface is pressed: nothing is sent."
        )?;
        push(rt, trace, INTERFACE, Edge::Press)?;
        trace.second(rt)?;
    }
    Ok(())
}

// Shows that the channel is free, and what time it is.
fn use_again(rt: &HostRuntime, trace: &mut Trace<Modules>) -> cli::Result<()> {
    println!(rt;
        "The 2 minutes are over. Button 1 of the interface is pressed and released: both are sent."
    )?;
    push(rt, trace, INTERFACE, Edge::Press)?;
    push(rt, trace, INTERFACE, Edge::Release)?;
    println!(rt; "The interface is asked for the time; its clock started at Monday 00:00.")?;
    ask(rt, trace, 1, [0xD7, 0, 0, 0, 0, 0, 0, 0])
}
