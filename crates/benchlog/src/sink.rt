// What takes the answers of a bench.
ghost use Rattle.std.specs.Prelude.{ℕ, List, Option, OnOk, IfErr, ⊤};
ghost use Rattle.std.specs.Io.KnownBytes.{Appends};

use std::io;
use std::io::Write;

/// Something that takes bytes, or says why it does not. What is over any sink cannot make up an error: the only errors that
/// it comes by are those that the sink gives. Every writer is a sink.
pub trait Sink {
    /// Why bytes were refused.
    type Error;

    // The bytes that it took so far, where they are known.
    ghost contents: { Self → Option (List ℕ) };

    // Holds of a sink, bytes that it refuses, the error that it gives, and the sink after that.
    ghost refuses: { Self → List ℕ → Self.Error → Self → Type 0 };

    /// Takes the bytes, all of them.
    ///
    /// # Errors
    ///
    /// Its own, if it does not. It may have taken a part of them then.
    fn accept(&mut self, bytes: &[u8]) -> Result<(), Self::Error>
        ensures taken { OnOk result (Appends (contents self.old) (contents self.new) bytes.now) }
        ensures refused { IfErr result (λ e. refuses self.old bytes.now e self.new) };
}

// Why a writer fails, and what it holds then, the library does not say: so any error may come, and any writer be left.
impl<W: Write> Sink for W {
    type Error = io::Error;

    ghost contents = { λ w. W.contents w };

    ghost refuses = { λ _ _ _ _. ⊤ };

    fn accept(&mut self, bytes: &[u8]) -> io::Result<()> {
        self.write_all(bytes)
    }
}
