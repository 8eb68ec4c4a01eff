// Texts with what they say, and bytes with their lines, worked out by hand.
use hextext::{HexLines, Position, ReadError, read, write_line};
use std::cell::Cell;
use std::io;
use std::io::Write;
use std::process::Abort;
use std::test::Fail;

// The two must be equal. An assertion is dear to prove, so one stands here for all.
pub(crate) fn same(rt: &impl Abort, got: &[u8], wanted: &[u8]) {
    assert_eq!(rt; got, wanted);
}

#[test]
fn texts_that_read(rt: HostRuntime) -> Result<(), Fail> {
    let cases: [(&[u8], &[u8]); 9] = [
        (b"", b""),
        (b"# only 12 words", b""),
        (b"# 1\n#2\n", b""),
        (b"03104A", b"\x03\x10\x4A"),
        (b"aF Ab 9c", b"\xAF\xAB\x9C"),
        (b"7E#note 12\n01", b"\x7E\x01"),
        (b"01 02\r\n\r\n03\r\n", b"\x01\x02\x03"),
        (b"\t01\t02", b"\x01\x02"),
        (b"# caf\xE9 \xC3\xA9 \x00\nFF", b"\xFF"),
    ];
    for (text, want) in cases {
        let bytes = read(rt.alloc(), text)?;
        same(&rt, bytes.as_slice(), want);
    }
    Ok(())
}

#[test]
fn texts_at_fault(rt: HostRuntime) {
    // the line, the column, the bytes before; and whether a digit is alone
    let cases: [(&[u8], (usize, usize, usize), bool); 13] = [
        (b"zz", (1, 1, 0), false),
        (b"1G", (1, 2, 1), false),
        (b"01 02\n03 0g", (2, 5, 10), false),
        (b"# a\n\n  01 ; x", (3, 6, 10), false),
        (b"00\t\xFF", (1, 4, 3), false),
        (b"0\x80", (1, 2, 1), false),
        (b"1 2", (1, 1, 0), true),
        (b"7\t", (1, 1, 0), true),
        (b"00 f\n00", (1, 4, 3), true),
        (b"00\nf\r\n00", (2, 1, 3), true),
        (b"00\n00 a#b", (2, 4, 6), true),
        (b"00\n00\n\n00 a", (4, 4, 10), true),
        (b"000", (1, 3, 2), true),
    ];
    for (text, (line, column, offset), lone) in cases {
        let at = Position {
            line,
            column,
            offset,
        };
        let want = if lone {
            ReadError::LoneDigit(at)
        } else {
            ReadError::BadDigit(at)
        };
        let fault = read(rt.alloc(), text).err();
        assert!(rt; fault == Some(want));
    }
}

#[test]
fn messages(rt: HostRuntime) -> Result<(), Fail> {
    let at = Position {
        line: 3,
        column: 17,
        offset: 40,
    };
    let cases = [
        (ReadError::BadDigit(at), "3:17: not a hexadecimal digit"),
        (
            ReadError::LoneDigit(at),
            "3:17: a digit alone; a byte is two digits",
        ),
        (ReadError::NoMemory, "not enough memory for the bytes"),
    ];
    for (fault, want) in cases {
        let text = format!(in rt.alloc(); "{fault}")?;
        same(&rt, text.as_bytes(), want.as_bytes());
    }
    Ok(())
}

#[test]
fn lines(rt: HostRuntime) -> Result<(), Fail> {
    let cases: [(&[u8], &[u8]); 3] = [
        (b"", b"\n"),
        (b"\x0A", b"0A\n"),
        (b"\x00\x9F\xAB\xFF", b"00 9F AB FF\n"),
    ];
    for (bytes, want) in cases {
        let mut text = Vec::new(rt.alloc());
        write_line(bytes, &mut text)?;
        same(&rt, text.as_slice(), want);
    }
    let mut room = [0; 4];
    assert!(rt; write_line(b"\x01\x02", &mut room.as_mut_slice()).is_err());
    Ok(())
}

#[test]
fn lines_read_back(rt: HostRuntime) -> Result<(), Fail> {
    let mut text = Vec::new(rt.alloc());
    let mut lines = HexLines::new(&mut text);
    assert_eq!(rt; lines.write(b"\x03\x10")?, 2);
    lines.write_all(b"")?;
    lines.write_all(b"\xC7")?;
    lines.flush()?;
    same(&rt, text.as_slice(), b"03 10\n\nC7\n");
    let bytes = read(rt.alloc(), text.as_slice())?;
    same(&rt, bytes.as_slice(), b"\x03\x10\xC7");
    Ok(())
}

// Notes that it was flushed.
#[derive(Drop)]
struct Flushed<'a>(&'a Cell<bool>);

impl Write for Flushed<'_> {
    fn write(&mut self, buf: &[u8]) -> io::Result<usize> {
        Ok(buf.len())
    }

    fn flush(&mut self) -> io::Result<()> {
        self.0.set(true);
        Ok(())
    }
}

#[test]
fn flushing(rt: HostRuntime) -> Result<(), Fail> {
    let flushed = Cell::new(false);
    HexLines::new(Flushed(&flushed)).flush()?;
    assert!(rt; flushed.get());
    Ok(())
}
