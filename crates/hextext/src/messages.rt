// What is said to a user of a text at fault.
ghost use Rattle.std.specs.Prelude.{Some};
ghost use Rattle.hextext.specs.Messages.{place, message};

use crate::error::{Position, ReadError};
use std::error::Error;
use std::fmt;

impl fmt::Display for Position {
    ghost output = { λ at. Some (place at) };

    fn fmt<W: fmt::Write>(&self, f: &mut fmt::Formatter<W>) -> fmt::Result {
        let Position { line, column, .. } = *self;
        write!(f, "{line}:{column}")
    }
}

impl fmt::Display for ReadError {
    ghost output = { λ e. Some (message e) };

    fn fmt<W: fmt::Write>(&self, f: &mut fmt::Formatter<W>) -> fmt::Result {
        match *self {
            ReadError::BadDigit(at) => write!(f, "{at}: not a hexadecimal digit"),
            ReadError::LoneDigit(at) => write!(f, "{at}: a digit alone; a byte is two digits"),
            ReadError::NoMemory => write!(f, "not enough memory for the bytes"),
        }
    }
}

impl Error for ReadError {}
