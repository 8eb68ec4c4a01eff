// The link records of a button interface.
use crate::linked::Linked;
use crate::numbers::Several;
use crate::times::LockTime;
use std::fmt;
use timing::hold_of_code;

// A record, as far as its bytes are known.
#[derive(Clone, Copy)]
pub(crate) struct LinkRecord<'a> {
    pub(crate) linked: Linked<'a>,
    pub(crate) asked: Asked,
    pub(crate) channels: Option<u8>,
}

impl fmt::Display for LinkRecord<'_> {
    fn fmt<W: fmt::Write>(&self, f: &mut fmt::Formatter<W>) -> fmt::Result {
        let linked = self.linked;
        let asked = self.asked;
        if linked.is_none() {
            return write!(f, "{linked}");
        }
        let mut joint = "";
        if !linked.is_unknown() {
            write!(f, "{linked}")?;
            joint = ", ";
        }
        if !asked.is_unknown() {
            write!(f, "{joint}{asked}")?;
            joint = ", ";
        }
        if let Some(bits) = self.channels {
            let channels = Several::channels(bits);
            write!(f, "{joint}acts on {channels}")?;
        }
        Ok(())
    }
}

// The action of a record and its time code, as far as they are known.
#[derive(Clone, Copy)]
pub(crate) struct Asked {
    pub(crate) action: Option<u8>,
    pub(crate) code: Option<u8>,
}

impl Asked {
    fn is_unknown(&self) -> bool {
        self.action.is_none() && self.code.is_none()
    }
}

impl fmt::Display for Asked {
    fn fmt<W: fmt::Write>(&self, f: &mut fmt::Formatter<W>) -> fmt::Result {
        if let Some(action) = self.action {
            let name = action_name(action);
            write!(f, "action {action} ({name})")?;
        }
        match self.code {
            Some(code) => self.time(code, f),
            None => Ok(()),
        }
    }
}

impl Asked {
    // The time of the code, unless the action is one that does not ask for it.
    fn time<W: fmt::Write>(&self, code: u8, f: &mut fmt::Formatter<W>) -> fmt::Result {
        let lasting = hold_of_code(code).map(LockTime);
        let joint = if self.action.is_some() { ", " } else { "" };
        match (self.action, lasting) {
            (Some(3 | 4), Some(lasting)) => write!(f, " {lasting}"),
            (None, Some(lasting)) => write!(f, "time code {code:02X}: {lasting}"),
            (None | Some(3 | 4), None) => write!(
                f,
                "{joint}time code {code:02X} (no time: actions 3 and 4 do nothing with it)"
            ),
            (Some(_), _) => Ok(()),
        }
    }
}

fn action_name(action: u8) -> &'static str {
    match action {
        3 => "lock",
        4 => "lock or free",
        5 => "free",
        _ => "does nothing",
    }
}
