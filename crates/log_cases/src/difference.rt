// What came out otherwise.
use hextext::write_line;
use std::io;

// What a difference is about.
#[derive(Clone, Copy)]
pub(crate) enum Subject {
    Answers,
    Lines,
    Record { address: u8, place: usize },
}

// Bytes that should have come out, and those that did.
#[derive(Drop)]
pub(crate) struct Difference {
    pub(crate) subject: Subject,
    pub(crate) expected: Vec<u8>,
    pub(crate) found: Vec<u8>,
}

impl Difference {
    pub(crate) fn print(&self, rt: &HostRuntime) -> io::Result<()> {
        match self.subject {
            Subject::Answers => println!(rt; "  answers")?,
            Subject::Lines => println!(rt; "  answers as lines of text")?,
            Subject::Record { address, place } => {
                println!(rt; "  record of {address:02X} from {place} on")?
            }
        }
        print!(rt; "    expected ")?;
        write_line(self.expected.as_slice(), &mut io::writer(rt))?;
        print!(rt; "    found    ")?;
        write_line(self.found.as_slice(), &mut io::writer(rt))
    }
}
