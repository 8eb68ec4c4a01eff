// Seconds one after the other in which nothing is sent, which are told in one line.
use crate::lines::item;
use crate::outcome::Outcome;
use house::Call;
use std::io;
use words::Span;

// The places of the first and the last in the log, where each second is one byte.
#[derive(Clone, Copy)]
pub struct Quiet {
    first: usize,
    last: usize,
}

impl Quiet {
    // The second at a place, after these.
    pub fn and(quiet: Option<Self>, place: usize) -> Self {
        Quiet {
            first: quiet.map_or(place, |quiet| quiet.first),
            last: place,
        }
    }

    pub fn tell(self, rt: &HostRuntime) -> io::Result<()> {
        let Quiet { first, last } = self;
        if first == last {
            return item(rt, first, "second", "time passes: 1 s (nothing sent)");
        }
        let seconds = last.saturating_sub(first).saturating_add(1);
        let span = Span(u32::try_from(seconds).unwrap_or(u32::MAX));
        let words = format_args!("time passes: {span}, up to place {last} (nothing sent)");
        item(rt, first, "second", words)
    }
}

// Whether it is a second that was served and in which nothing was sent.
pub fn is_quiet(outcome: &Outcome<'_>) -> bool {
    matches!(outcome.call, Call::Second { .. }) && outcome.is_silent()
}
