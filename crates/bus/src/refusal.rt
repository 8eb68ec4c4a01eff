// The numbered refusals.
ghost use Rattle.std.specs.Prelude.{◌≡◌, Some};
ghost use Rattle.bus.specs.Refusals.{number, words};

use std::fmt;

// Why a call was refused. Each case has a number, by which documents and logs speak of it; more cases will come.
#[derive(Clone, Copy, PartialEq, Eq, Debug)]
pub enum Refusal {
    SeatAddress = 1,
    AddressTwice = 2,
    TooManySeats = 3,
    ShortBuffer = 4,
    IllFormedFrame = 5,
    NoSuchSeat = 6,
    NoSuchButton = 7,
    NotQuiet = 8,
    NothingPending = 9,
    NoRoom = 10,
    UnknownItem = 11,
    CutShort = 12,
}

impl Refusal {
    // The number of the refusal, from 1.
    pub fn number(self) -> u8
        ensures { result ≡ number self }
    {
        self as u8
    }
}

// The refusal in words.
impl fmt::Display for Refusal {
    ghost output = { λ r. Some (words r) };

    fn fmt<W: fmt::Write>(&self, f: &mut fmt::Formatter<W>) -> fmt::Result {
        let text = match self {
            Refusal::SeatAddress => "a seat has address 00 or FF",
            Refusal::AddressTwice => "two seats have one address",
            Refusal::TooManySeats => "there are more than 16 seats",
            Refusal::ShortBuffer => "the buffer is too short",
            Refusal::IllFormedFrame => "the frame is not well formed",
            Refusal::NoSuchSeat => "no seat has that address",
            Refusal::NoSuchButton => "there is no such button or edge",
            Refusal::NotQuiet => "frames are still pending: step first",
            Refusal::NothingPending => "no frame is pending",
            Refusal::NoRoom => "what could be sent might not fit",
            Refusal::UnknownItem => "the log item is of no known kind",
            Refusal::CutShort => "the log item is cut short",
        };
        f.write_str(text)
    }
}
