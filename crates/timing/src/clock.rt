// A clock for the week.
use std::marker::Model;

// Day 0 is Monday. There is no other time than a real one.
#[derive(Clone, Copy)]
pub struct Clock {
    pub(crate) day: u8,
    pub(crate) hour: u8,
    pub(crate) minute: u8,
    pub(crate) second: u8,
}

// In clauses a clock is the time that it shows.
impl Model for Clock {
    ghost use Rattle.timing.specs.Times.{Time, Real};

    ghost Value = { Time };

    ghost view = { λ c. record { day = c.day; hour = c.hour; minute = c.minute; second = c.second } };

    ghost invariant = { λ c. Real (record { day = c.day; hour = c.hour; minute = c.minute; second = c.second }) };

    ghost inverse = { λ t. record { day = t.day; hour = t.hour; minute = t.minute; second = t.second } };
}
