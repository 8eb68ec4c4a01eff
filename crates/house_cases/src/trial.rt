// Trying a case.
use crate::answer::{NO_MEMORY, answer, told};
use crate::asked::{Asked, byte};
use crate::case::{Case, Step};
use crate::stations::{modules, seventeen, sixteen};
use anyhow::{Context, Result, bail};
use house::House;
use runs::{Unfinished, replay};
use station::Station;
use std::alloc::Global;

// A step that came out otherwise, how it was taken, and what was answered.
#[derive(Drop)]
pub(crate) struct Difference<'a> {
    pub(crate) way: &'static str,
    pub(crate) step: &'a str,
    pub(crate) found: String,
}

pub(crate) fn first_difference<'a>(
    heap: Global,
    case: &Case<'a>,
) -> Result<Option<Difference<'a>>> {
    let (kind, rest) = case.house.split_once(' ').context("this is no house")?;
    let addresses = addresses(rest).context("these are no addresses")?;
    let steps = case.steps.as_slice();
    match kind {
        "modules" => of_either(heap, modules(addresses), modules(addresses), steps),
        "sixteen" => of_either(heap, sixteen(addresses), sixteen(addresses), steps),
        "seventeen" => of_either(heap, seventeen(addresses), seventeen(addresses), steps),
        _ => bail!("there is no such house"),
    }
}

fn addresses(text: &str) -> Option<[u8; 4]> {
    let mut found = [0; 4];
    for (place, word) in found.iter_mut().zip(text.split(' ')) {
        *place = byte(word)?;
    }
    Some(found)
}

fn of_either<'a, S: Station + Drop>(
    heap: Global,
    here: S,
    there: S,
    steps: &[Step<'a>],
) -> Result<Option<Difference<'a>>> {
    let Ok(mut house) = House::new(heap, here) else {
        bail!("there is no memory for a house");
    };
    for step in steps {
        let difference = taken(heap, &mut house, step, "one by one")?;
        if difference.is_some() {
            return Ok(difference);
        }
    }
    of_replay(heap, there, steps)
}

// Takes a step, and tells if it comes out otherwise.
fn taken<'a, S: Station>(
    heap: Global,
    house: &mut House<S>,
    step: &Step<'a>,
    way: &'static str,
) -> Result<Option<Difference<'a>>> {
    Ok(step.unless_expected(way, answer(heap, house, step.asked)?))
}

// The calls as a replay notes them; then what is asked after the last call, of the house that the replay leaves.
fn of_replay<'a, S: Station + Drop>(
    heap: Global,
    station: S,
    steps: &[Step<'a>],
) -> Result<Option<Difference<'a>>> {
    let mut calls = Vec::new(heap);
    for step in steps {
        if let Asked::Call { call, .. } = step.asked {
            calls.push(call)?;
        }
    }
    let mut done = match replay(heap, station, calls.as_slice()) {
        Ok(done) => done,
        Err(Unfinished::Stopped(done)) => done,
        Err(Unfinished::NoHouse(_)) => bail!("there is no memory for a house"),
    };
    let mut entries = done.entries.iter();
    for step in steps.iter().filter(|step| step.is_call()) {
        let found = match entries.next() {
            Some(entry) => told(heap, &entry.answer, entry.sent.as_slice())?,
            None => format!(in heap; "{NO_MEMORY}")?,
        };
        let difference = step.unless_expected("replayed", found);
        if difference.is_some() {
            return Ok(difference);
        }
    }
    for step in steps.iter().rev().take_while(|step| !step.is_call()) {
        let difference = taken(heap, &mut done.house, step, "after the replay")?;
        if difference.is_some() {
            return Ok(difference);
        }
    }
    Ok(None)
}

impl<'a> Step<'a> {
    fn is_call(&self) -> bool {
        matches!(self.asked, Asked::Call { .. })
    }

    fn unless_expected(&self, way: &'static str, found: String) -> Option<Difference<'a>> {
        if self.expects(found.as_str()) {
            return None;
        }
        let step = self.text;
        Some(Difference { way, step, found })
    }
}
