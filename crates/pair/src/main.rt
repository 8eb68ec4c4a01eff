// Shows what the law of isolation promises: two houses share a group of modules and differ in all else, and the group
// does the same in both.
#![tactic(auto)]

mod act;
mod group;
mod here;
mod record;
mod setups;
mod there;

use act::{Act, calls_of};
use bus::Frame;
use group::{GROUP, PANEL, RELAY};
use pairing::{all_sent, frames_of, same_frames, same_records};
use record::show_record;
use runs::{Replayed, replay};
use station::Station;
use std::collections::BTreeMap;
use std::process::ExitCode;
use terms::ModuleType;
use trace::Shown;
use words::HexAndWords;

const ABOUT: &str =
    "Shows two houses that share a group of modules, which does the same in both, call by call";

fn main(rt: HostRuntime) -> ExitCode {
    cli::end(&rt, "pair", run(&rt))
}

fn run(rt: &HostRuntime) -> cli::Result<()> {
    cli::no_arguments(rt, "pair", ABOUT)?;
    println!(rt; "Two houses share a group of modules, 10 and 20. In all else they differ.")?;
    println!(rt;
        "Here: a relay at 10 under a sieve, a panel at 20, and a button interface at 30."
    )?;
    let kinds = BTreeMap::from_array(rt.alloc(), here::KINDS)?;
    let mut shown_here = Shown::new(rt.alloc(), kinds);
    let here = play(rt, here::modules(), &mut shown_here, &here::acts())?;
    println!(rt; "There: relays at 50 and 10 under one sieve, and panels at 40 and 20.")?;
    let kinds = BTreeMap::from_array(rt.alloc(), there::KINDS)?;
    let mut shown_there = Shown::new(rt.alloc(), kinds);
    let there = play(rt, there::modules(), &mut shown_there, &there::acts())?;
    let sent_here = show_group(rt, "Here", &here, &shown_here)?;
    let sent_there = show_group(rt, "There", &there, &shown_there)?;
    let records = same_records(&here.house, &there.house, &GROUP);
    let frames = same_frames(sent_here.as_slice(), sent_there.as_slice());
    sum_up(rt, records, frames, sent_here.len())
}

// Makes the calls of the acts in a new house, and then shows each.
fn play<S: Station + Drop>(
    rt: &HostRuntime,
    modules: S,
    shown: &mut Shown,
    acts: &[Act],
) -> cli::Result<Replayed<S>> {
    let calls = calls_of(rt.alloc(), acts)?;
    let done = replay(rt.alloc(), modules, calls.as_slice()).map_err(|_| cli::Error::NoMemory)?;
    let mut entries = done.entries.iter();
    for act in acts {
        println!(rt; "{}", act.text)?;
        for _ in 0..=act.steps {
            if let Some(entry) = entries.next() {
                shown.show(rt, entry.call, entry.answer, entry.sent.as_slice())?;
            }
        }
    }
    Ok(done)
}

// Shows the group's records as they are at the end, and the frames of the group that were sent.
fn show_group<S: Station>(
    rt: &HostRuntime,
    place: &str,
    done: &Replayed<S>,
    shown: &Shown,
) -> cli::Result<Vec<Frame>> {
    let pending = done.house.pending();
    println!(rt; "{place}, {pending} frames are pending at the end. The group's records:")?;
    show_record(rt, &done.house, RELAY, ModuleType::Relay)?;
    show_record(rt, &done.house, PANEL, ModuleType::Panel)?;
    println!(rt; "The group's frames:")?;
    let sent = all_sent(rt.alloc(), done.entries.as_slice())?;
    let frames = frames_of(rt.alloc(), &GROUP, sent.as_slice())?;
    for frame in &frames {
        let told = HexAndWords {
            modules: &shown.modules,
            frame: *frame,
        };
        println!(rt; "sent  {told}")?;
    }
    Ok(frames)
}

// Says whether the group did the same in both houses.
fn sum_up(rt: &HostRuntime, records: bool, frames: bool, number: usize) -> cli::Result<()> {
    let records = verdict(records);
    let frames = verdict(frames);
    println!(rt; "The group's records: {records}. The group's frames: {frames} ({number}).")?;
    Ok(())
}

fn verdict(equal: bool) -> &'static str {
    if equal { "equal" } else { "not equal" }
}
