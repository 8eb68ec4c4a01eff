// Why a log could not be read.
ghost use Rattle.std.specs.Prelude.{◌≡◌};
ghost use Rattle.input.specs.declared.error.LogError.TheVariants.{Unreadable};

use hextext::ReadError;
use std::alloc::Global;
use std::io;

/// Why a log could not be read.
#[derive(Debug, Drop)]
pub enum LogError {
    /// The reader failed.
    Unreadable(io::Error),
    /// A text is at fault; the word is what stands about the place of the fault.
    Text { fault: ReadError, word: Vec<u8> },
    /// There was no memory for the log.
    NoMemory,
}

// A word is told up to here.
const TOLD: usize = 24;

impl LogError {
    ghost use Rattle.cli.specs.Statuses.{status_of};

    /// What a program says of its input of this name.
    pub fn named(&self, heap: Global, name: &str) -> cli::Error
        ensures { status_of result ≡ 1 }
    {
        match self {
            LogError::Unreadable(error) => {
                cli::Error::failed(heap, format_args!("{name}: {error}"))
            }
            LogError::Text { fault, word } => {
                let told = word.get(..TOLD).unwrap_or(word.as_slice()).escape_ascii();
                cli::Error::failed(heap, format_args!("{name}:{fault}: \"{told}\""))
            }
            LogError::NoMemory => cli::Error::NoMemory,
        }
    }
}

impl From<io::Error> for LogError {
    ghost from_gives = { λ e r. r ≡ Unreadable e };

    fn from(error: io::Error) -> Self {
        LogError::Unreadable(error)
    }
}
