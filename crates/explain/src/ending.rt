// How a log ends: what is wrong with it, and what state everything is in.
use crate::lines::{item, under};
use crate::plan::{INTERFACE, PANEL, RELAY};
use crate::state::{ClockTime, Contacts, Locks, State};
use benchlog::{Fault, ItemKind};
use bus::Refusal;
use house::House;
use input::LIMIT;
use kinds::BenchModules;
use std::io;
use terms::ModuleType;
use words::Numbers;

// Whether an item is cut short because no more is read of a log, and not because the log is damaged.
pub fn is_cut_by_limit(log: &[u8], fault: Fault) -> bool {
    log.len() == LIMIT && fault.refusal == Refusal::CutShort
}

// Tells why a log can be read no further.
pub fn tell_fault(rt: &HostRuntime, log: &[u8], fault: Fault) -> io::Result<()> {
    let Fault { refusal, place } = fault;
    let Some((byte, after)) = log.get(place..).and_then(|rest| rest.split_first()) else {
        return Ok(());
    };
    if is_cut_by_limit(log, fault) {
        let words = format_args!("cut by the limit: no more than {LIMIT} bytes are read");
        item(rt, place, "limit", words)?;
    } else {
        let number = refusal.number();
        let words = format_args!("refused with {number}: {refusal}");
        item(rt, place, "fault", words)?;
    }
    match ItemKind::try_from(*byte) {
        Ok(kind) => {
            let needed = kind.body_length();
            let there = after.len();
            let are = if there == 1 { "is" } else { "are" };
            let words = format_args!(
                "after {byte:02X} there should be {needed} bytes, and there {are} {there}"
            );
            under(rt, words)
        }
        Err(_) => {
            let words = format_args!(
                "items begin with 01 to 05, and here is {byte:02X}; the log is read no further"
            );
            under(rt, words)
        }
    }
}

// Tells what state everything is in.
pub fn tell_states(rt: &HostRuntime, house: &House<BenchModules>) -> io::Result<()> {
    println!(rt; "\nAt the end:")?;
    let relay = State {
        house,
        address: RELAY,
        kind: ModuleType::Relay,
    };
    let contacts = Contacts(relay);
    println!(rt; "relay 10             contacts: {contacts}")?;
    let interface = State {
        house,
        address: INTERFACE,
        kind: ModuleType::Buttons,
    };
    tell_buttons(rt, "button interface 20", interface)?;
    let locks = Locks(interface);
    println!(rt; "                     locked channels: {locks}")?;
    let clock = ClockTime(interface);
    println!(rt; "                     clock: {clock}")?;
    let panel = State {
        house,
        address: PANEL,
        kind: ModuleType::Panel,
    };
    tell_buttons(rt, "panel 30", panel)?;
    match house.pending() {
        0 => println!(rt; "bus                  no frame waits")?,
        1 => println!(rt; "bus                  1 frame waits")?,
        number => println!(rt; "bus                  {number} frames wait")?,
    }
    Ok(())
}

// The buttons of a module, and the lamps beside them.
fn tell_buttons(rt: &HostRuntime, name: &str, state: State<'_>) -> io::Result<()> {
    let pressed = Numbers(state.pressed());
    let lamps = state.lamps();
    println!(rt; "{name:21}buttons pressed: {pressed}")?;
    println!(rt; "                     lamps: {lamps}")?;
    Ok(())
}
