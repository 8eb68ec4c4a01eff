// Times in words.
use bus::Frame;
use std::fmt;

// So many seconds, in hours, minutes and seconds.
#[derive(Clone, Copy)]
pub struct Span(pub u32);

impl fmt::Display for Span {
    fn fmt<W: fmt::Write>(&self, f: &mut fmt::Formatter<W>) -> fmt::Result {
        let seconds = self.0;
        let parts = [
            (seconds / 3600, "h"),
            (seconds / 60 % 60, "min"),
            (seconds % 60, "s"),
        ];
        if seconds == 0 {
            return f.write_str("0 s");
        }
        let mut joint = "";
        for (number, unit) in parts {
            if number != 0 {
                write!(f, "{joint}{number} {unit}")?;
                joint = " ";
            }
        }
        Ok(())
    }
}

// How long a lock lasts.
#[derive(Clone, Copy)]
pub struct LockTime(pub u32);

impl fmt::Display for LockTime {
    fn fmt<W: fmt::Write>(&self, f: &mut fmt::Formatter<W>) -> fmt::Result {
        let time = Span(self.0);
        match self.0 {
            0xFFFFFF => f.write_str("until unlocked"),
            _ => write!(f, "for {time}"),
        }
    }
}

// A minute of the week; day 0 is Monday.
#[derive(Clone, Copy)]
pub struct Moment {
    pub day: u8,
    pub hour: u8,
    pub minute: u8,
}

impl fmt::Display for Moment {
    fn fmt<W: fmt::Write>(&self, f: &mut fmt::Formatter<W>) -> fmt::Result {
        let day = match self.day {
            0 => "Monday",
            1 => "Tuesday",
            2 => "Wednesday",
            3 => "Thursday",
            4 => "Friday",
            5 => "Saturday",
            6 => "Sunday",
            _ => "no weekday",
        };
        let hour = self.hour;
        let minute = self.minute;
        write!(f, "{day} {hour:02}:{minute:02}")
    }
}

impl Moment {
    fn is_real(self) -> bool {
        self.day < 7 && self.hour < 24 && self.minute < 60
    }
}

pub(crate) fn is_clock(frame: &Frame) -> bool {
    frame.is_command(0xD7, 1) || frame.is_command(0xD8, 4)
}

// What a frame says of a clock; with address 0 the time is set.
pub(crate) fn clock<W: fmt::Write>(frame: &Frame, f: &mut fmt::Formatter<W>) -> fmt::Result {
    let [command, day, hour, minute, _, _, _, _] = frame.bytes;
    let moment = Moment { day, hour, minute };
    let (before, after) = match (command, frame.address) {
        (0xD7, _) => return f.write_str("tell the time"),
        (_, 0) if moment.is_real() => ("set the clock to ", ""),
        (_, 0) => ("set the clock to ", ", a time that does not exist"),
        _ => ("the time is ", ""),
    };
    write!(f, "{before}{moment}{after}")
}
