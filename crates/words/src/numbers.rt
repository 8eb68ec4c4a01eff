// Numbers that a byte names by its bits.
ghost use Rattle.std.specs.Prelude.{◌≡◌};

use std::fmt;

// The numbers from 1 to 8 whose bits are set, or the word none.
#[derive(Clone, Copy)]
pub struct Numbers(pub u8);

impl fmt::Display for Numbers {
    fn fmt<W: fmt::Write>(&self, f: &mut fmt::Formatter<W>) -> fmt::Result {
        let bits = self.0;
        if bits == 0xFF {
            return f.write_str("1 to 8");
        }
        if bits == 0 {
            return f.write_str("none");
        }
        let last = 8u32.saturating_sub(bits.leading_zeros());
        let mut joint = "";
        for place in 0..8u32 {
            if (bits >> place) & 1 == 1 {
                let number = place + 1;
                if number == last && !joint.is_empty() {
                    joint = " and ";
                }
                write!(f, "{joint}{number}")?;
                joint = ", ";
            }
        }
        Ok(())
    }
}

// Channels, buttons or lamps that a byte names by its bits.
#[derive(Clone, Copy)]
pub(crate) struct Several {
    noun: &'static str,
    bits: u8,
}

impl Several {
    fn named(noun: &'static str, bits: u8) -> Self
        ensures { result.bits ≡ bits }
    {
        Several { noun, bits }
    }

    pub(crate) fn channels(bits: u8) -> Self
        ensures { result.bits ≡ bits }
    {
        Several::named("channel", bits)
    }

    pub(crate) fn buttons(bits: u8) -> Self
        ensures { result.bits ≡ bits }
    {
        Several::named("button", bits)
    }

    pub(crate) fn lamps(bits: u8) -> Self
        ensures { result.bits ≡ bits }
    {
        Several::named("lamp", bits)
    }
}

impl fmt::Display for Several {
    fn fmt<W: fmt::Write>(&self, f: &mut fmt::Formatter<W>) -> fmt::Result {
        let noun = self.noun;
        let numbers = Numbers(self.bits);
        let ending = match self.bits.count_ones() {
            0 => return write!(f, "no {noun}"),
            1 => "",
            _ => "s",
        };
        write!(f, "{noun}{ending} {numbers}")
    }
}
