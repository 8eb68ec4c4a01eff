// Tries the cases of a table, which comes on standard input, and prints those that do not come out as the table says.
// A case is a log for the bench, the answers to it, and bytes that the records of the modules must have then. A line that
// begins with `! ` is a case with a mistake, which has to be found; so it shows that cases are compared.
#![tactic(auto)]

mod case;
mod difference;
mod look;
mod modules;
mod trial;

use case::Case;
use cli::{Error, Line, Source};
use std::process::ExitCode;
use trial::differences;

// How many cases were tried, how many of them differ, and how many mistakes were found. One that was not found counts as
// a case that differs.
#[derive(Clone, Copy)]
struct Tally {
    cases: usize,
    differ: usize,
    mistakes: usize,
}

const ABOUT: &str =
    "Tries a table of logs on the bench, and tells which do not come out as the table says";

fn main(rt: HostRuntime) -> ExitCode {
    cli::end(&rt, "log_cases", run(&rt))
}

fn run(rt: &HostRuntime) -> cli::Result<()> {
    let heap = rt.alloc();
    let words = cli::words(rt)?;
    let command = cli::command(heap, "log_cases", ABOUT)?.arg(cli::file_argument(heap))?;
    let matches = cli::matches(heap, command, words.as_slice())?;
    let source = Source::open(rt, matches.get_str("FILE"))?;
    let file = source.name;
    let table = source.read_text(heap)?;
    try_table(rt, file, table.as_str())
}

fn try_table(rt: &HostRuntime, file: &str, table: &str) -> cli::Result<()> {
    let mut tally = Tally {
        cases: 0,
        differ: 0,
        mistakes: 0,
    };
    for (index, line) in table.lines().enumerate() {
        let number = index.saturating_add(1);
        let place = Line { file, number };
        if let Some(mistaken) = line.strip_prefix("! ") {
            let found = try_mistake(rt, place, mistaken)?;
            tally.mistakes = tally.mistakes.saturating_add(usize::from(found));
            tally.differ = tally.differ.saturating_add(usize::from(!found));
        } else if !is_comment(line) {
            let differs = try_line(rt, place, line)?;
            tally.cases = tally.cases.saturating_add(1);
            tally.differ = tally.differ.saturating_add(usize::from(differs));
        }
    }
    sum_up(rt, tally)
}

// Whether there is no case in a line.
fn is_comment(line: &str) -> bool {
    line.trim().is_empty() || line.starts_with('#')
}

// Tries the case of a line, and answers whether it differs.
fn try_line(rt: &HostRuntime, place: Line<'_>, line: &str) -> cli::Result<bool> {
    let heap = rt.alloc();
    let Some(case) = Case::read(line) else {
        return Err(place.failed(heap, "this is no case"));
    };
    let differences = differences(heap, &case).map_err(|error| place.failed(heap, error))?;
    if differences.is_empty() {
        return Ok(false);
    }
    let number = place.number;
    let name = case.name;
    println!(rt; "line {number}: {name}")?;
    for difference in &differences {
        difference.print(rt)?;
    }
    Ok(true)
}

// Tries a case with a mistake, and answers whether it was found.
fn try_mistake(rt: &HostRuntime, place: Line<'_>, line: &str) -> cli::Result<bool> {
    let found = try_line(rt, place, line)?;
    if !found {
        let number = place.number;
        println!(rt; "line {number}: the mistake was not found")?;
    }
    Ok(found)
}

fn sum_up(rt: &HostRuntime, tally: Tally) -> cli::Result<()> {
    let Tally {
        cases,
        differ,
        mistakes,
    } = tally;
    if differ != 0 {
        println!(rt; "{cases} cases, {differ} differ")?;
        return Err(Error::failed(rt.alloc(), "the bench does not do what the table says"));
    }
    println!(rt; "{cases} cases, all as they should be, and {mistakes} mistakes, all found")?;
    Ok(())
}
