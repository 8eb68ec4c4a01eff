// The command line.
use clap::{Arg, ArgAction, ArgMatches, Command};
use std::alloc::Global;

// What it can say besides the words that every program knows.
pub fn command<'a>(heap: Global) -> cli::Result<Command<'a>> {
    let brief = Arg::new(heap, "brief")
        .long("brief")
        .action(ArgAction::SetTrue)
        .help("Leave out the steps at which no module sent anything");
    let strict = Arg::new(heap, "strict")
        .long("strict")
        .action(ArgAction::SetTrue)
        .help("End with status 3 where an item was refused or the log is faulty");
    let command = cli::command(heap, "explain", ABOUT)?
        .arg(cli::file_argument(heap))?
        .arg(brief)?
        .arg(strict)?
        .after_help(NOTES);
    Ok(command)
}

const ABOUT: &str = "\
Tells in words what a log says was done on the bus, what came of it, and what state everything is in at the end.";

const NOTES: &str = "\
A log is bytes or hexadecimal digits, and explain sees which of them it is. On the bus are the modules that the program
bench has. What the bytes of a log are is said by bench help and docs/LOG.md.
Addresses and cells are told in hexadecimal, all other numbers in decimal. Channels, buttons and lamps count from 1; places
in the log, tables, pairs and link records count from 0.";

// What it asks for.
#[derive(Clone, Copy)]
pub struct Options<'a> {
    pub file: Option<&'a str>,
    pub is_brief: bool,
    pub is_strict: bool,
}

impl<'a> Options<'a> {
    pub fn of(matches: &ArgMatches<'a>) -> Self {
        Options {
            file: matches.get_str("FILE"),
            is_brief: matches.get_flag("brief"),
            is_strict: matches.get_flag("strict"),
        }
    }
}
