// The lines of the output.
use std::{fmt, io};

// A line for an item: its place in the log, what it is, and that in words.
pub fn item<D: fmt::Display + Drop>(
    rt: &HostRuntime,
    place: usize,
    what: &str,
    words: D,
) -> io::Result<()> {
    println!(rt; "{place:5}  {what:8}{words}")?;
    Ok(())
}

// Where a line begins that explains one under an item.
pub const FURTHER_IN: &str = "                 ";

// A line under that of an item.
pub fn under<D: fmt::Display + Drop>(rt: &HostRuntime, words: D) -> io::Result<()> {
    println!(rt; "               {words}")?;
    Ok(())
}
