// How a command line is read.
ghost use Rattle.std.specs.Prelude.{◌≡◌, ◌⊎◌, true, false, codes, map, IfOk, IfErr, IsOkUnless, string_bytes};
ghost use Rattle.clap.specs.declared.error.kind.ErrorKind.TheVariants.{OutOfMemory};
ghost use Rattle.clap.specs.Words.{HasMatchesOf, IsParsedFrom, app_of, kind_of, takes};
ghost use Rattle.cli.specs.Statuses.{status_of, status_of_kind};
ghost use Rattle.cli.specs.declared.error.Error.TheVariants.{NoMemory};

use crate::error::{Error, Result};
use clap::error::ErrorKind;
use clap::{Arg, ArgMatches, Command};
use std::alloc::Global;
use std::{env, io};

/// The version that every program tells.
pub const VERSION: &str = "0.1";

/// The words of the command line, the name of the program first.
pub fn words(rt: &HostRuntime) -> Result<Vec<String>>
    ensures { IfErr result (λ e. (e ≡ NoMemory) ⊎ (status_of e ≡ 2)) }
{
    match env::args(rt) {
        Ok(words) => Ok(words.collect(rt.alloc())?),
        Err(error) if error.kind() == io::ErrorKind::InvalidData => Err(Error::CommandLine(
            String::from_str(rt.alloc(), "a word of the command line is not UTF-8\n")?,
        )),
        Err(_) => Err(Error::NoMemory),
    }
}

/// The command line of a program: `--help`, `-h`, the word `help`, and `--version`.
pub fn command<'a>(heap: Global, name: &'a str, about: &'a str) -> Result<Command<'a>>
    ensures err { IsOkUnless result NoMemory }
{
    // `clap` knows the word where there are subcommands, and lists it
    let help = Command::new(heap, "help").hide(true);
    let command = Command::new(heap, name)
        .bin_name(name)?
        .about(about)
        .version(VERSION)
        .subcommand(help)?;
    Ok(command)
}

/// Reads the command line of a program that takes no arguments of its own.
pub fn no_arguments(rt: &HostRuntime, name: &str, about: &str) -> Result<()>
    ensures { IfErr result (λ e. (e ≡ NoMemory) ⊎ ((status_of e ≡ 0) ⊎ (status_of e ≡ 2))) }
{
    let words = words(rt)?;
    matches(
        rt.alloc(),
        command(rt.alloc(), name, about)?,
        words.as_slice(),
    )?;
    Ok(())
}

/// An argument with the name of the file to read, `FILE`, for a program that reads input.
pub fn file_argument<'a>(heap: Global) -> Arg<'a>
    ensures id { result.id.now ≡ codes "FILE" }
    ensures optional { result.required ≡ false }
{
    Arg::new(heap, "FILE").help("The file to read; - or none is standard input")
}

/// What the words say to a program with this command line.
pub fn matches<'a>(
    heap: Global,
    command: Command<'a>,
    words: &'a [String],
) -> Result<ArgMatches<'a>>
    ensures parsed { IfOk result (IsParsedFrom command.entry) }
    ensures matches { IfOk result (HasMatchesOf (app_of command.entry) (map string_bytes words.entry.now)) }
    ensures taken { IfErr result (λ e. takes (app_of command.entry) (map string_bytes words.entry.now) ≡ true → e ≡ NoMemory) }
    ensures refused { IfErr result (λ e. (e ≡ NoMemory) ⊎ ((status_of e ≡ 0) ⊎ (status_of e ≡ 2))) }
{
    match command.try_get_matches_from(words) {
        Ok(matches) => Ok(matches),
        Err(error) => Err(refused(heap, &error)),
    }
}

// What `clap` says instead of matches.
fn refused(heap: Global, error: &clap::Error) -> Error
    ensures status { (result ≡ NoMemory) ⊎ (status_of result ≡ status_of_kind (kind_of error.now)) }
    ensures memory { kind_of error.now ≡ OutOfMemory → result ≡ NoMemory }
{
    let Ok(text) = error.to_string(heap) else {
        return Error::NoMemory;
    };
    match error.kind() {
        ErrorKind::OutOfMemory => Error::NoMemory,
        ErrorKind::DisplayHelp | ErrorKind::DisplayVersion => Error::Shown(text),
        _ => mistake(heap, text.as_str()),
    }
}

// What is wrong with a command line; the name of the program will stand in front of it.
fn mistake(heap: Global, text: &str) -> Error
    ensures { (result ≡ NoMemory) ⊎ (status_of result ≡ 2) }
{
    match String::from_str(heap, text.strip_prefix("error: ").unwrap_or(text)) {
        Ok(text) => Error::CommandLine(text),
        Err(_) => Error::NoMemory,
    }
}
