// What is said of an answer in the line of its item.
use crate::outcome::Outcome;
use crate::state::Button;
use runs::Reply;
use std::fmt;

// Of a call and its answer; of a refusal, and of frames that were sent, lines of their own tell.
#[derive(Clone, Copy)]
pub struct Note<'a>(pub Outcome<'a>);

impl fmt::Display for Note<'_> {
    fn fmt<W: fmt::Write>(&self, f: &mut fmt::Formatter<W>) -> fmt::Result {
        match self.0.answer {
            Ok(Reply::Accepted) => f.write_str(" (accepted)"),
            Ok(Reply::Cleared(1)) => f.write_str(" (1 frame dropped)"),
            Ok(Reply::Cleared(number)) => write!(f, " ({number} frames dropped)"),
            Ok(_) if self.0.sent.is_empty() => f.write_str(nothing_sent(self.0.button)),
            Ok(_) | Err(_) => Ok(()),
        }
    }
}

// That nothing was sent; of a push, also why.
fn nothing_sent(button: Option<Button>) -> &'static str {
    match button {
        None => " (nothing sent)",
        Some(Button::Locked) => " (nothing sent: its channel is locked)",
        Some(Button::Down) => " (nothing sent: down already)",
        Some(Button::Up) => " (nothing sent: not down)",
    }
}
