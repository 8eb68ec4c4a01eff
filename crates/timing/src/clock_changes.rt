// How a clock moves.
ghost use Rattle.std.specs.Prelude.{◌≡◌, ◌<◌, ◌≤◌, [], ◌∷◌};
ghost use Rattle.timing.specs.Times.{Real, midnight, set_to, next, a_second_later};

use crate::clock::Clock;

// A part of the time that moves on, where it does: after its last value comes 0.
fn next(moves: bool, last: u8, value: u8) -> u8
    requires { (value ≤ last) × (last < 255) }
    ensures value { result ≡ next moves last value }
    ensures bound { result ≤ last }
{
    if !moves {
        value
    } else if value == last {
        0
    } else {
        value + 1
    }
}

impl Clock {
    // Monday, midnight.
    pub fn new() -> Self
        ensures time { result ≡ midnight }
        ensures real { Real result }
    {
        Clock {
            day: 0,
            hour: 0,
            minute: 0,
            second: 0,
        }
    }

    // Sets it to a full minute; a time that does not exist leaves it as it was.
    pub fn set(&mut self, day: u8, hour: u8, minute: u8)
        ensures time { self.new ≡ set_to day hour minute self.old }
        ensures real { Real self.new }
    {
        // a proof knows that the old time is real once a field is looked at
        let _ = &self.day;
        if day < 7 && hour < 24 && minute < 60 {
            *self = Clock {
                day,
                hour,
                minute,
                second: 0,
            };
        }
    }

    // A second passes; mostly the minute goes on.
    pub fn tick(&mut self)
        ensures time { self.new ≡ a_second_later self.old }
        ensures real { Real self.new }
    {
        if self.second < 59 {
            self.second += 1;
            return;
        }
        let hour_ends = self.minute == 59;
        let day_ends = hour_ends && self.hour == 23;
        *self = Clock {
            day: next(day_ends, 6, self.day),
            hour: next(hour_ends, 23, self.hour),
            minute: next(true, 59, self.minute),
            second: 0,
        };
    }

    // Day, hour, minute and second.
    pub fn bytes(&self) -> [u8; 4]
        ensures value { result ≡ self.now.day ∷ self.now.hour ∷ self.now.minute ∷ self.now.second ∷ [] }
        ensures real { Real self.now }
    {
        [self.day, self.hour, self.minute, self.second]
    }
}
