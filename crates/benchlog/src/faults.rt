// The answer to a fault.
ghost use Rattle.std.specs.Prelude.{◌≡◌};
ghost use Rattle.benchlog.specs.Bytes.{fault_bytes};

use crate::fault::Fault;

impl Fault {
    // 0x84, the number of the refusal, and the low four bytes of the place, the high one first.
    pub fn bytes(&self) -> [u8; 6]
        ensures { result ≡ fault_bytes self.now }
    {
        let [_, _, _, _, a, b, c, d] = self.place.to_be_bytes();
        [0x84, self.refusal.number(), a, b, c, d]
    }
}
