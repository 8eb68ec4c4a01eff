// How a channel switches.
ghost use Rattle.std.specs.Prelude.{◌≡◌, ◌/◌, ◌%◌, [], ◌∷◌};
ghost use Rattle.relay.specs.Contacts.{in_range, is_closed, is_running, obeyed, ticked, contact_bytes};
ghost use Rattle.relay.specs.Shown.{shown};

use crate::action::Action;
use crate::channel::Channel;
use crate::seconds::Seconds;

impl Seconds {
    // That time, or the nearer end of the range.
    pub fn new(time: u32) -> Self
        ensures { result.value ≡ in_range time }
    {
        Seconds {
            value: time.clamp(1, 0xFFFFFE),
        }
    }

    // The time in three bytes, high byte first.
    fn bytes(self) -> [u8; 3]
        ensures { result ≡ self.value / 65536 ∷ self.value / 256 % 256 ∷ self.value % 256 ∷ [] }
    {
        let [_, high, mid, low] = self.value.to_be_bytes();
        [high, mid, low]
    }
}

impl Channel {
    pub fn is_closed(&self) -> bool
        ensures { result ≡ is_closed (shown self.now) }
    {
        match self {
            Channel::Open => false,
            Channel::Closed | Channel::Running(_) => true,
        }
    }

    // Whether its time runs, as then a second changes it.
    pub(crate) fn is_running(&self) -> bool
        ensures { result ≡ is_running (shown self.now) }
    {
        matches!(self, Channel::Running(_))
    }

    // The outcome depends on both the state and the action.
    pub fn obey(&mut self, action: Action)
        ensures { shown self.new ≡ obeyed action (shown self.old) }
    {
        *self = match (*self, action) {
            (_, Action::Clear) => Channel::Open,
            (_, Action::Set) | (Channel::Open, Action::Toggle) => Channel::Closed,
            (_, Action::Start(t)) | (Channel::Open, Action::ToggleTimer(t)) => Channel::Running(
                Seconds::new(t),
            ),
            (_, Action::Toggle | Action::ToggleTimer(_)) => Channel::Open,
        };
    }

    // A second passes: the last one of a running time opens the channel.
    pub fn tick(&mut self)
        ensures { shown self.new ≡ ticked (shown self.old) }
    {
        if let Channel::Running(time) = *self {
            let left = time.value - 1;
            *self = if left == 0 {
                Channel::Open
            } else {
                Channel::Running(Seconds::new(left))
            };
        }
    }

    // State and time, as the record and the status frame have them.
    pub fn bytes(&self) -> [u8; 4]
        ensures { result ≡ contact_bytes (shown self.now) }
    {
        match self {
            Channel::Open => [0, 0, 0, 0],
            Channel::Closed => [1, 0, 0, 0],
            Channel::Running(time) => {
                let [high, mid, low] = time.bytes();
                [3, high, mid, low]
            }
        }
    }
}
