// What the command line asks for.
use clap::{Arg, ArgAction, ArgMatches, Command};
use input::Form;
use std::alloc::Global;

const ABOUT: &str =
    "Runs a log of what was done on a bus of home-automation modules, and writes what they answer";

const MORE: &str = "\
Without a word it takes and gives bytes, and any bytes are a log. bench hex takes and gives hexadecimal digits: spaces and
line breaks between bytes are free, and # begins a comment.

On the bus are a relay VMB4RY at address 10, a button interface VMB8PBU at 20 and a panel VMB4PD at 30 (hexadecimal).

A log is a list of items:     The answers to an item:
  01 and a frame  put it        81 and a frame   for each frame that modules sent
  02              a second      80               then, if the item was served
  03 A C E        a push        82 and a number  if it was refused
  04              a step        84, a number and the item's place in four bytes, if the log
  05              clear                          cannot be read further

A frame is priority, address, RTR, count and eight data bytes. A push has an address, a channel from 1 on, and an edge:
00 press, 01 release, 02 long press. A step lets the frame pass that waits longest. At most 60,000 bytes of a log are read.

The status is 0, also if items are refused; 1 if the log cannot be read or the answers cannot be written; 2 if the
command line is wrong; 3 as --strict says.";

// The form of the log, whether a refusal counts as a failure, and the file to read.
#[derive(Clone, Copy)]
pub(crate) struct Asked<'a> {
    pub(crate) form: Form,
    pub(crate) is_strict: bool,
    pub(crate) file: Option<&'a str>,
}

impl<'a> Asked<'a> {
    pub(crate) fn by(matches: &ArgMatches<'a>) -> Self {
        match matches.subcommand_matches("hex") {
            Some(behind) => Asked::with(Form::Hex, behind),
            None => Asked::with(Form::Binary, matches),
        }
    }

    fn with(form: Form, matches: &ArgMatches<'a>) -> Self {
        Asked {
            form,
            is_strict: matches.get_flag("strict"),
            file: matches.get_str("FILE"),
        }
    }
}

pub(crate) fn command<'a>(heap: Global) -> cli::Result<Command<'a>> {
    let strict = Arg::new(heap, "strict")
        .long("strict")
        .action(ArgAction::SetTrue)
        .global(true)
        .help("End with status 3 if an item was refused or the log is faulty");
    let hex = Command::new(heap, "hex")
        .about("Take and give hexadecimal digits")
        .arg(cli::file_argument(heap))?;
    Ok(
        cli::command(heap, "bench", ABOUT)?
            .after_help(MORE)
            .arg(cli::file_argument(heap))?
            .arg(strict)?
            .subcommand(hex)?,
    )
}
