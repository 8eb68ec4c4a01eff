// How a bench runs a log.
ghost use Rattle.std.specs.Prelude.{◌≡◌, ◌≤◌, length, OnOk, IfErr};
ghost use Rattle.house.specs.Turns.{copied_in};
ghost use Rattle.benchlog.specs.Items.{shown_found};
ghost use Rattle.benchlog.specs.Benches.{bench_bus, after_found, found_bytes, RanLog, LeftLog};

use crate::bench::Bench;
use crate::fault::Fault;
use crate::item::Item;
use crate::reader::Reader;
use crate::sink::Sink;
use station::Station;

impl<S: Station> Bench<S> {
    // Answers what was found in a log at the front of a buffer, which has the places.
    fn write_found(&mut self, found: &Result<Item<'_>, Fault>, buffer: &mut [u8]) -> usize
        requires { 360 ≤ length buffer.old }
        ensures bus { bench_bus S.seats self.new ≡ after_found (shown_found found.now) (bench_bus S.seats self.old) }
        ensures count { result ≡ length (found_bytes (bench_bus S.seats self.old) (shown_found found.now)) }
        ensures bytes { buffer.new ≡ copied_in (found_bytes (bench_bus S.seats self.old) (shown_found found.now)) buffer.old }
    {
        match found {
            Ok(item) => self.write_answer(item, buffer),
            Err(fault) => {
                buffer[..6].copy_from_slice(&fault.bytes());
                6
            }
        }
    }

    /// Makes the calls that a log records, and gives the answer to each to a sink. A fault ends the log, and its answer is
    /// the last.
    ///
    /// # Errors
    ///
    /// The sink's, where it refuses an answer; nothing is run after that.
    pub fn run<K: Sink>(&mut self, log: &[u8], out: &mut K) -> Result<(), K::Error>
        ensures done { OnOk result (RanLog S.seats log.now self.old self.new (K.contents out.old) (K.contents out.new)) }
        ensures unfinished { IfErr result (λ e. LeftLog S.seats K.contents K.refuses log.now self.old self.new out.old out.new e) }
    {
        let mut buffer = [0; 360];
        for found in Reader::new(log) {
            let count = self.write_found(&found, &mut buffer[..]);
            out.accept(&buffer[..count])?;
        }
        Ok(())
    }
}
