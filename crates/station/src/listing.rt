// How the addresses of a station are listed.
ghost use Rattle.std.specs.Prelude.{◌≡◌};
ghost use Rattle.station.specs.Listed.{no_addresses, added};

use crate::addresses::Addresses;

impl Addresses {
    // No seat yet.
    pub fn new() -> Self
        ensures { result ≡ no_addresses }
    {
        Addresses {
            seated: [false; 256],
            count: 0,
            outside: false,
            twice: false,
        }
    }

    // One seat more.
    pub fn add(&mut self, address: u8)
        ensures { self.new ≡ added address self.old }
    {
        let seated = self.seated[usize::from(address)];
        self.seated[usize::from(address)] = true;
        self.count = if self.count < 17 {
            self.count + 1
        } else {
            self.count
        };
        self.outside = self.outside || address == 0 || address == 255;
        self.twice = self.twice || seated;
    }
}
