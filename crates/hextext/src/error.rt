// Where a text is at fault, and how.
ghost use Rattle.std.specs.Prelude.{◌≡◌};
ghost use Rattle.hextext.specs.declared.error.ReadError.TheVariants.{NoMemory};

use std::alloc::AllocFailed;

// A place in a text. Lines end at line breaks and columns count bytes; both count from 1. `offset` is how many bytes
// of the text stand before the place.
#[derive(Clone, Copy, Debug, PartialEq, Eq)]
pub struct Position {
    pub line: usize,
    pub column: usize,
    pub offset: usize,
}

// Why a text could not be read.
#[derive(Clone, Copy, Debug, PartialEq, Eq)]
pub enum ReadError {
    // What stands here is no digit, where one should be.
    BadDigit(Position),
    // The digit here is the first of a byte, and the second does not follow it.
    LoneDigit(Position),
    // There was no memory for the bytes.
    NoMemory,
}

impl ReadError {
    ghost use Rattle.hextext.specs.Words.{place_of};

    /// Where the text is at fault.
    pub fn place(self) -> Option<Position>
        ensures { result ≡ place_of self }
    {
        match self {
            ReadError::BadDigit(at) | ReadError::LoneDigit(at) => Some(at),
            ReadError::NoMemory => None,
        }
    }
}

impl<T: Drop> From<AllocFailed<T>> for ReadError {
    ghost from_gives = { λ _ e. e ≡ NoMemory };

    fn from(_failed: AllocFailed<T>) -> Self {
        ReadError::NoMemory
    }
}
