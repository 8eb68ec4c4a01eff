// Whether what was answered tells of a refusal.
use std::io;
use std::io::Write;

// A writer of answers, one by one, that notes whether all of them say that an item was served.
#[derive(Drop)]
pub(crate) struct Watched<W> {
    inner: W,
    all_served: bool,
}

impl<W: Write + Drop> Watched<W> {
    pub(crate) fn new(inner: W) -> Self {
        Watched {
            inner,
            all_served: true,
        }
    }

    pub(crate) fn all_served(&self) -> bool {
        self.all_served
    }

    // An answer to an item that was refused begins with 82, and one to a fault with 84.
    fn note(&mut self, answer: &[u8]) {
        if let Some(0x82 | 0x84) = answer.first() {
            self.all_served = false;
        }
    }
}

impl<W: Write + Drop> Write for Watched<W> {
    fn write(&mut self, answer: &[u8]) -> io::Result<usize> {
        self.write_all(answer)?;
        Ok(answer.len())
    }

    fn write_all(&mut self, answer: &[u8]) -> io::Result<()> {
        self.note(answer);
        self.inner.write_all(answer)
    }

    fn flush(&mut self) -> io::Result<()> {
        self.inner.flush()
    }
}
