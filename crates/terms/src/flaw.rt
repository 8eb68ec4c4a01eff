// What is wrong with a frame.
ghost use Rattle.std.specs.Prelude.{◌≡◌};
ghost use Rattle.std.specs.Option.{is_none};
ghost use Rattle.bus.specs.Frames.{well_formed};
ghost use Rattle.terms.specs.Flaws.{flaw_of};

use bus::Frame;
use std::fmt;

// The first of the rules of a frame that a frame breaks.
#[derive(Clone, Copy)]
pub enum Flaw {
    Priority(u8),
    Rtr(u8),
    Count(u8),
    // A request with so many data bytes.
    RequestWithData(u8),
    // A data byte that the count leaves out.
    Leftover,
}

impl Flaw {
    // None if the frame is well formed.
    pub fn of(frame: &Frame) -> Option<Self>
        ensures flaw { result ≡ flaw_of frame.now }
        ensures none { is_none result ≡ well_formed frame.now }
    {
        match *frame {
            Frame { priority: 4.., .. } => Some(Flaw::Priority(frame.priority)),
            Frame { rtr: 2.., .. } => Some(Flaw::Rtr(frame.rtr)),
            Frame { count: 9.., .. } => Some(Flaw::Count(frame.count)),
            Frame {
                rtr: 1,
                count: 1..,
                ..
            } => Some(Flaw::RequestWithData(frame.count)),
            _ if frame.is_well_formed() => None,
            _ => Some(Flaw::Leftover),
        }
    }
}

impl fmt::Display for Flaw {
    fn fmt<W: fmt::Write>(&self, f: &mut fmt::Formatter<W>) -> fmt::Result {
        // one call that prints is proved sooner than one for each case; so in other files
        let (before, byte, after) = match *self {
            Flaw::Priority(priority) => ("its priority, ", priority, ", is above 03"),
            Flaw::Rtr(rtr) => ("its RTR, ", rtr, ", is neither 00 nor 01"),
            Flaw::Count(count) => ("its count, ", count, ", is above 08"),
            Flaw::RequestWithData(count) => (
                "with RTR 01 the count has to be 00, and it is ",
                count,
                "",
            ),
            Flaw::Leftover => return f.write_str("data bytes past its count have to be 00"),
        };
        write!(f, "{before}{byte:02X}{after}")
    }
}
