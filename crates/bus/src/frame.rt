// A frame of the bus, and when it is well formed.
ghost use Rattle.std.specs.Prelude.{◌≡◌, ◌≤◌, true};
ghost use Rattle.bus.specs.Frames.{is_command, is_type_request, of_body, seconds_in, sound_header, well_formed, zeros};

// A frame as it is written down, which may also be ill formed: nothing here says that its parts fit together.
#[derive(Clone, Copy, PartialEq, Eq, Debug, Default)]
pub struct Frame {
    pub priority: u8,
    pub address: u8,
    pub rtr: u8,
    pub count: u8,
    pub bytes: [u8; 8],
}

impl Frame {
    // A frame with RTR 0.
    pub fn new(priority: u8, address: u8, count: u8, bytes: [u8; 8]) -> Self
        ensures { result ≡ record { priority = priority; address = address; rtr = 0; count = count; bytes = bytes } }
    {
        Frame {
            priority,
            address,
            rtr: 0,
            count,
            bytes,
        }
    }

    // Whether it is that command, in a frame of that many bytes.
    pub fn is_command(&self, code: u8, count: u8) -> bool
        ensures { result ≡ is_command code count self.now }
    {
        self.bytes[0] == code && self.rtr == 0 && self.count == count
    }

    // Whether it asks a module for its type.
    pub fn is_type_request(&self) -> bool
        ensures { result ≡ is_type_request self.now }
    {
        self.rtr == 1 && self.count == 0
    }

    // The time that a command carries, in seconds.
    pub fn seconds(&self) -> u32
        ensures { result ≡ seconds_in self.now }
    {
        let [_, _, high, mid, low, _, _, _] = self.bytes;
        u32::from_be_bytes([0, high, mid, low])
    }

    // Whether priority, RTR and count fit together.
    fn has_sound_header(&self) -> bool
        ensures value { result ≡ sound_header self.now }
        ensures bound { result ≡ true → self.now.count ≤ 8 }
    {
        self.priority < 4 && self.rtr < 2 && self.count < 9 && (self.rtr == 0 || self.count == 0)
    }

    // Whether the frame keeps the rules of a frame.
    pub fn is_well_formed(&self) -> bool
        ensures { result ≡ well_formed self.now }
    {
        self.has_sound_header() && all_zero(&self.bytes[usize::from(self.count)..])
    }
}

// Whether each byte is 0.
fn all_zero(bytes: &[u8]) -> bool
    ensures { result ≡ zeros bytes.now }
{
    bytes.iter().all(|byte| *byte == 0)
}

// A frame as a log has it: priority, address, RTR, count and the eight data bytes.
impl From<[u8; 12]> for Frame {
    ghost from_gives = { λ body r. r ≡ of_body body };

    fn from(body: [u8; 12]) -> Self {
        let [priority, address, rtr, count, a, b, c, d, e, f, g, h] = body;
        Frame {
            priority,
            address,
            rtr,
            count,
            bytes: [a, b, c, d, e, f, g, h],
        }
    }
}
