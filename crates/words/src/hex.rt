// Frames in hexadecimal.
use bus::Frame;
use std::fmt;

// Priority, address, RTR, count and the eight data bytes, as in a log.
#[derive(Clone, Copy)]
pub struct Hex(pub Frame);

impl fmt::Display for Hex {
    fn fmt<W: fmt::Write>(&self, f: &mut fmt::Formatter<W>) -> fmt::Result {
        let priority = self.0.priority;
        let address = self.0.address;
        let rtr = self.0.rtr;
        let count = self.0.count;
        write!(f, "{priority:02X} {address:02X} {rtr:02X} {count:02X}")?;
        for byte in self.0.bytes {
            write!(f, " {byte:02X}")?;
        }
        Ok(())
    }
}

// The data bytes of a frame that its count takes in.
#[derive(Clone, Copy)]
pub(crate) struct Data(pub(crate) Frame);

impl fmt::Display for Data {
    fn fmt<W: fmt::Write>(&self, f: &mut fmt::Formatter<W>) -> fmt::Result {
        if self.0.count == 0 {
            return f.write_str("no data");
        }
        f.write_str("data")?;
        for byte in self.0.bytes.iter().take(usize::from(self.0.count)) {
            write!(f, " {byte:02X}")?;
        }
        Ok(())
    }
}
