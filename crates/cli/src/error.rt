// Why a program ends before its work is done.
ghost use Rattle.std.specs.Prelude.{◌≡◌};
ghost use Rattle.cli.specs.Statuses.{status_of};
ghost use Rattle.cli.specs.declared.error.Error.TheVariants.{NoMemory, Output};

use std::alloc::{AllocError, AllocFailed, Global};
use std::{fmt, io};

/// Why a program ends before its work is done.
#[derive(Debug, Drop)]
pub enum Error {
    /// Help or the version was asked for: this text is printed instead.
    Shown(String),
    /// The command line is wrong; the text says why, and how the program is called.
    CommandLine(String),
    /// The work cannot be done, as where input cannot be read; the text says why.
    Failed(String),
    /// There is no memory.
    NoMemory,
    /// An item of the log was refused, or the log is faulty, and `--strict` asks for a status of its own then.
    Strict,
    /// What the program prints cannot be written.
    Output(io::Error),
}

pub type Result<T> = std::result::Result<T, Error>;

impl Error {
    /// A failure for this reason.
    pub fn failed<D: fmt::Display + Drop>(heap: Global, why: D) -> Self
        ensures { status_of result ≡ 1 }
    {
        match format!(in heap; "{why}") {
            Ok(text) => Error::Failed(text),
            Err(_) => Error::NoMemory,
        }
    }

    /// The status that a program ends with: 0 where help or the version was shown, or where nobody reads on what it
    /// prints; 2 where the command line is wrong; 3 for `Strict`; and else 1.
    pub fn status(&self) -> u8
        ensures { result ≡ status_of self.now }
    {
        match self {
            Error::Shown(_) => 0,
            Error::CommandLine(_) => 2,
            Error::Strict => 3,
            Error::Output(error) if error.kind() == io::ErrorKind::BrokenPipe => 0,
            Error::Failed(_) | Error::NoMemory | Error::Output(_) => 1,
        }
    }
}

impl From<io::Error> for Error {
    ghost from_gives = { λ e r. r ≡ Output e };

    fn from(error: io::Error) -> Self {
        Error::Output(error)
    }
}

impl From<AllocError> for Error {
    ghost from_gives = { λ _ r. r ≡ NoMemory };

    fn from(_error: AllocError) -> Self {
        Error::NoMemory
    }
}

impl<T: Drop> From<AllocFailed<T>> for Error {
    ghost from_gives = { λ _ r. r ≡ NoMemory };

    fn from(_failed: AllocFailed<T>) -> Self {
        Error::NoMemory
    }
}
