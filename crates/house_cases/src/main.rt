// Tries the cases of a table, which comes on standard input, and prints those that do not come out as the table says.
// A case is a house, calls, and their answers. The calls are made one by one on a new house, and replayed on another. A
// line that begins with `! ` is a case with a mistake, which has to be found; so it shows that answers are compared.
#![tactic(auto)]

mod answer;
mod asked;
mod case;
mod stations;
mod trial;

use case::Case;
use cli::{Error, Line, Source};
use std::process::ExitCode;
use trial::first_difference;

const ABOUT: &str =
    "Tries a table of calls on houses, and tells which do not come out as the table says";

fn main(rt: HostRuntime) -> ExitCode {
    cli::end(&rt, "house_cases", run(&rt))
}

fn run(rt: &HostRuntime) -> cli::Result<()> {
    let heap = rt.alloc();
    let words = cli::words(rt)?;
    let command = cli::command(heap, "house_cases", ABOUT)?.arg(cli::file_argument(heap))?;
    let matches = cli::matches(heap, command, words.as_slice())?;
    let source = Source::open(rt, matches.get_str("FILE"))?;
    let file = source.name;
    let table = source.read_text(heap)?;
    try_table(rt, file, table.as_str())
}

fn try_table(rt: &HostRuntime, file: &str, table: &str) -> cli::Result<()> {
    let mut cases = 0usize;
    let mut wrong = 0usize;
    for (index, line) in table.lines().enumerate() {
        let number = index.saturating_add(1);
        let (is_mistaken, text) = match line.strip_prefix("! ") {
            Some(text) => (true, text),
            None => (false, line),
        };
        if text.is_empty() || text.starts_with('#') {
            continue;
        }
        let differs = try_line(rt, Line { file, number }, text)?;
        cases = cases.saturating_add(1);
        wrong = wrong.saturating_add(usize::from(differs != is_mistaken));
    }
    println!(rt; "{cases} cases, {wrong} not as they should be")?;
    if wrong != 0 {
        return Err(Error::failed(rt.alloc(), "houses do not do what the table says"));
    }
    Ok(())
}

// Tries the case of a line, and answers whether it differs.
fn try_line(rt: &HostRuntime, place: Line<'_>, line: &str) -> cli::Result<bool> {
    let heap = rt.alloc();
    let Some(case) = Case::read(heap, line)? else {
        return Err(place.failed(heap, "this is no case"));
    };
    let difference = first_difference(heap, &case).map_err(|error| place.failed(heap, error))?;
    let Some(difference) = difference else {
        return Ok(false);
    };
    let number = place.number;
    let name = case.name;
    let way = difference.way;
    let step = difference.step;
    let found = difference.found.as_str();
    println!(rt; "line {number}: {name}\n  {way}:{step}\n  found {found}")?;
    Ok(true)
}
