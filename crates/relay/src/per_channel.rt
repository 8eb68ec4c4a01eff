// One value for each of the four channels. Definitions range over every value of this type, and an array would be a list
// of any length there.
ghost use Rattle.std.specs.Prelude.{◌≡◌};
ghost use Rattle.relay.specs.Channels.{paired, numbered, some, Each, Paired};

#[derive(Clone, Copy)]
pub struct PerChannel<T> {
    pub one: T,
    pub two: T,
    pub three: T,
    pub four: T,
}

// The bit of each channel.
pub(crate) const BITS: PerChannel<u8> = PerChannel {
    one: 1,
    two: 2,
    three: 4,
    four: 8,
};

impl<T> PerChannel<T> {
    // What a function makes of each channel's number, counted from 0.
    pub(crate) fn from_fn<F: Fn(u8) -> T>(f: F) -> Self
        requires { Each (F.pre f) (numbered (λ c. c)) }
        ensures { Paired (F.post f) (numbered (λ c. c)) result }
    {
        PerChannel {
            one: f(0),
            two: f(1),
            three: f(2),
            four: f(3),
        }
    }

    // What a function makes of each channel's value.
    pub(crate) fn map<U, F: Fn(T) -> U>(self, f: F) -> PerChannel<U>
        requires { Each (F.pre f) self }
        ensures { Paired (F.post f) self result }
    {
        PerChannel {
            one: f(self.one),
            two: f(self.two),
            three: f(self.three),
            four: f(self.four),
        }
    }

    // Each channel's value with its other one.
    pub(crate) fn zip<U>(self, other: PerChannel<U>) -> PerChannel<(T, U)>
        ensures { result ≡ paired (λ x y. (x, y)) self other }
    {
        PerChannel {
            one: (self.one, other.one),
            two: (self.two, other.two),
            three: (self.three, other.three),
            four: (self.four, other.four),
        }
    }
}

impl PerChannel<bool> {
    // Whether it is so of some channel.
    pub(crate) fn any(self) -> bool
        ensures { result ≡ some self }
    {
        self.one || self.two || self.three || self.four
    }
}
