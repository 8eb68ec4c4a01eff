// Logs of all lengths about the limit, and which form is read.
use crate::text_cases::same;
use cli::Error;
use input::{Form, LogError, read_any, read_log};
use std::test::Fail;

#[test]
fn limit(rt: HostRuntime) -> Result<(), Fail> {
    for (given, taken) in [
        (0, 0),
        (1, 1),
        (59_999, 59_999),
        (60_000, 60_000),
        (60_001, 60_000),
    ] {
        let heap = rt.alloc();
        let bytes = vec![in heap; 2u8; given]?;
        let digits = vec![in heap; b'2'; 2 * given]?;
        let read = [
            length(read_log(heap, bytes.as_slice(), Form::Binary))?,
            length(read_any(heap, bytes.as_slice()))?,
            length(read_log(heap, digits.as_slice(), Form::Hex))?,
        ];
        assert_eq!(rt; read, [taken; 3]);
    }
    Ok(())
}

fn length(log: Result<Vec<u8>, LogError>) -> Result<usize, Fail> {
    match log {
        Ok(log) => Ok(log.len()),
        Err(_) => Err(Fail::new("unread")),
    }
}

// A log as it is given, and what is read of it; none, where a text is at fault.
#[test]
fn forms(rt: HostRuntime) -> Result<(), Fail> {
    let table: [(&[u8], Option<&[u8]>); 12] = [
        (b"", Some(b"")),
        (b"\x04\x05", Some(b"\x04\x05")),
        (b"04 05", Some(b"\x04\x05")),
        (b"# nothing", Some(b"")),
        (b"\r\n04", Some(b"\x04")),
        (b"\xFF04", Some(b"\xFF04")),
        (b"\xEF\xBB\xBF04 # a step\r\n05\r\n", Some(b"\x04\x05")),
        (b"\xEF\xBB\xBF", Some(b"")),
        (b"\xEF\xBB04", Some(b"\xEF\xBB04")),
        (b"04 \xEF\xBB\xBF05", None),
        (b"0", None),
        (b"04 0g", None),
    ];
    for (given, wanted) in table {
        let read = read_any(rt.alloc(), given).ok();
        match (&read, wanted) {
            (Some(log), Some(wanted)) => same(&rt, log.as_slice(), wanted),
            (None, None) => {}
            _ => return Err(Fail::new("not as wanted")),
        }
    }
    Ok(())
}

// What a program says of its input: the place in a text, and up to 24 bytes of the word there.
#[test]
fn faults_are_told(rt: HostRuntime) -> Result<(), Fail> {
    let table: [(&[u8], &str); 5] = [
        (b"04\n0g", "a.hex:2:2: not a hexadecimal digit: \"0g\""),
        (
            b"04 0 5",
            "a.hex:1:4: a digit alone; a byte is two digits: \"0\"",
        ),
        (
            b"\xEF\xBB\xBF# a step\r\n 0405G6#7",
            "a.hex:2:6: not a hexadecimal digit: \"0405G6\"",
        ),
        (
            b"04\t\"\xFF\"",
            "a.hex:1:4: not a hexadecimal digit: \"\\\"\\xff\\\"\"",
        ),
        (
            b"zyxwvutsrqponmlkjihgfedcba",
            "a.hex:1:1: not a hexadecimal digit: \"zyxwvutsrqponmlkjihgfedc\"",
        ),
    ];
    for (given, wanted) in table {
        let Err(error) = read_log(rt.alloc(), given, Form::Hex) else {
            return Err(Fail::new("read"));
        };
        let Error::Failed(text) = error.named(rt.alloc(), "a.hex") else {
            return Err(Fail::new("no failure"));
        };
        same(&rt, text.as_bytes(), wanted.as_bytes());
    }
    Ok(())
}
