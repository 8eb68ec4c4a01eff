// How a line is written.
ghost use Rattle.std.specs.Prelude.{◌≡◌, OnOk};
ghost use Rattle.std.specs.Io.KnownBytes.{Appends};
ghost use Rattle.hextext.specs.Lines.{digits, line_of};

use crate::digits::upper_digit;
use std::io;
use std::io::Write;

// Writes bytes as a line: each as two digits, with a space between bytes, and a line break at the end.
pub fn write_line<W: Write>(bytes: &[u8], out: &mut W) -> io::Result<()>
    ensures { OnOk result (Appends (W.contents out.old) (W.contents out.new) (line_of bytes.now)) }
{
    if let Some((first, rest)) = bytes.split_first() {
        out.write_all(&digits(*first))?;
        for byte in rest {
            let [high, low] = digits(*byte);
            out.write_all(&[b' ', high, low])?;
        }
    }
    out.write_all(b"\n")
}

// A byte as two digits, the high one first.
fn digits(byte: u8) -> [u8; 2]
    ensures { result ≡ digits byte }
{
    [upper_digit(byte / 16), upper_digit(byte % 16)]
}
