// Where a program reads its input.
ghost use Rattle.std.specs.Prelude.{◌≡◌, IfOk, IfErr, option_map};
ghost use Rattle.cli.specs.Sources.{source_name};
ghost use Rattle.cli.specs.Statuses.{status_of};

use crate::error::{Error, Result};
use std::alloc::Global;
use std::fs::File;
use std::io::{Read, StdinLock};
use std::{fmt, io};

const STANDARD_INPUT: &str = "standard input";

/// A file, or standard input.
#[derive(Drop)]
pub struct Source<'a> {
    /// What it is called in a message.
    pub name: &'a str,
    reader: Reader,
}

#[derive(Drop)]
enum Reader {
    File(File),
    StandardInput(StdinLock<'static>),
}

impl<'a> Source<'a> {
    /// Opens the file of this name; `-` and no name stand for standard input.
    pub fn open(rt: &HostRuntime, file: Option<&'a str>) -> Result<Self>
        ensures name { IfOk result (λ s. s.name.now ≡ source_name (option_map (λ f. f.now) file.entry)) }
        ensures err { IfErr result (λ e. status_of e ≡ 1) }
    {
        let name = match file {
            None => STANDARD_INPUT,
            Some(name) if name == "-" => STANDARD_INPUT,
            Some(name) => return Source::of_file(rt, name),
        };
        let reader = Reader::StandardInput(rt.reader());
        Ok(Source { name, reader })
    }

    fn of_file(rt: &HostRuntime, name: &'a str) -> Result<Self>
        ensures name { IfOk result (λ s. s.name ≡ name.entry) }
        ensures err { IfErr result (λ e. status_of e ≡ 1) }
    {
        match File::open(rt, name) {
            Ok(file) => Ok(Source {
                name,
                reader: Reader::File(file),
            }),
            Err(error) => Err(Error::failed(rt.alloc(), format_args!("{name}: {error}"))),
        }
    }

    /// All of the input, which must be UTF-8 text.
    pub fn read_text(self, heap: Global) -> Result<String>
        ensures { IfErr result (λ e. status_of e ≡ 1) }
    {
        let name = self.name;
        match io::read_to_string(heap, self) {
            Ok(text) => Ok(text),
            Err(error) => Err(Error::failed(heap, format_args!("{name}: {error}"))),
        }
    }
}

impl Read for Source<'_> {
    fn read(&mut self, buf: &mut [u8]) -> io::Result<usize> {
        match &mut self.reader {
            Reader::File(file) => file.read(buf),
            Reader::StandardInput(input) => input.read(buf),
        }
    }
}

/// A line of an input.
#[derive(Clone, Copy)]
pub struct Line<'a> {
    /// What the input is called.
    pub file: &'a str,
    /// Counts from 1.
    pub number: usize,
}

impl Line<'_> {
    /// That something is wrong with the line.
    pub fn failed<D: fmt::Display + Drop>(self, heap: Global, why: D) -> Error
        ensures { status_of result ≡ 1 }
    {
        let Line { file, number } = self;
        Error::failed(heap, format_args!("{file}:{number}: {why}"))
    }
}
