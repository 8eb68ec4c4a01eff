// A writer that writes lines of hexadecimal text.
ghost use Rattle.std.specs.Prelude.{◌≡◌, length, None, IfOk, OnOk};
ghost use Rattle.std.specs.Io.{WritesAtMost};
ghost use Rattle.std.specs.Io.KnownBytes.{Appends, Keeps, WriteAppends};
ghost use Rattle.hextext.specs.Lines.{line_of};

use crate::writing::write_line;
use std::io;
use std::io::Write;

// Writes the bytes of each call as a line of their own.
#[derive(Drop)]
pub struct HexLines<W> {
    inner: W,
}

impl<W: Write + Drop> HexLines<W> {
    pub fn new(inner: W) -> Self
        ensures { result.inner ≡ inner }
    {
        HexLines { inner }
    }
}

impl<W: Write + Drop> Write for HexLines<W> {
    fn write(&mut self, buf: &[u8]) -> io::Result<usize>
        ensures bound { WritesAtMost result buf.now }
        ensures bytes { WriteAppends None None result buf.now }
        ensures whole { IfOk result (λ n. n ≡ length buf.now) }
        ensures line { OnOk result (Appends (W.contents self.old.inner) (W.contents self.new.inner) (line_of buf.now)) }
    {
        self.write_all(buf)?;
        Ok(buf.len())
    }

    // Of no bytes too, where the provided method would not write.
    fn write_all(&mut self, buf: &[u8]) -> io::Result<()>
        ensures bytes { OnOk result (Appends None None buf.now) }
        ensures line { OnOk result (Appends (W.contents self.old.inner) (W.contents self.new.inner) (line_of buf.now)) }
    {
        write_line(buf, &mut self.inner)
    }

    fn flush(&mut self) -> io::Result<()>
        ensures bytes { Keeps None None }
        ensures inner { Keeps (W.contents self.old.inner) (W.contents self.new.inner) }
    {
        self.inner.flush()
    }
}
