// How a log is read.
ghost use Rattle.std.specs.Prelude.{◌≡◌, IfOk, IfErr, IfSome, take};
ghost use Rattle.input.specs.Forms.{Reads, form_of, without_mark};
ghost use Rattle.input.specs.Faults.{IsFaultIn, IsFaultOf};

use crate::error::LogError;
use crate::form::Form;
use hextext::{ReadError, word_about};
use std::alloc::Global;
use std::io;
use std::io::Read;

// How many bytes of a log the bench takes.
pub const LIMIT: usize = 60_000;

// The log that a reader gives, written in that form.
pub fn read_log<R: Read + Drop>(heap: Global, reader: R, form: Form) -> Result<Vec<u8>, LogError>
    ensures log { IfOk result (λ log. IfSome (R.remaining reader) (λ bytes. Reads form bytes log.items)) }
    ensures fault { IfErr result (λ e. IfSome (R.remaining reader) (λ bytes. IsFaultOf e form bytes)) }
{
    match form {
        Form::Binary => Ok(read_binary(heap, reader)?),
        Form::Hex => read_text(heap, read_all(heap, reader)?.as_slice()),
    }
}

// The log that a reader gives, in the form that its first byte shows.
pub fn read_any<R: Read + Drop>(heap: Global, reader: R) -> Result<Vec<u8>, LogError>
    ensures log { IfOk result (λ log. IfSome (R.remaining reader) (λ bytes. Reads (form_of bytes) bytes log.items)) }
    ensures fault { IfErr result (λ e. IfSome (R.remaining reader) (λ bytes. IsFaultOf e (form_of bytes) bytes)) }
{
    let mut bytes = read_all(heap, reader)?;
    match form_of(bytes.as_slice()) {
        Form::Binary => {
            bytes.truncate(LIMIT);
            Ok(bytes)
        }
        Form::Hex => read_text(heap, bytes.as_slice()),
    }
}

// The mark with which some editors begin a text, which is no part of it.
const MARK: [u8; 3] = [0xEF, 0xBB, 0xBF];

// The form of a log that begins so: no item begins with a digit, a space, a line break, `#`, or the mark of a text.
fn form_of(bytes: &[u8]) -> Form
    ensures { result ≡ form_of bytes.now }
{
    match bytes.first() {
        Some(b'0'..=b'9' | b'A'..=b'F' | b'a'..=b'f' | b' ' | b'\t' | b'\r' | b'\n' | b'#') => {
            Form::Hex
        }
        _ if bytes.starts_with(&MARK) => Form::Hex,
        _ => Form::Binary,
    }
}

// A text without the mark.
fn without_mark(bytes: &[u8]) -> &[u8]
    ensures { result.now ≡ without_mark bytes.now }
{
    bytes.strip_prefix(&MARK).unwrap_or(bytes)
}

// Memory is taken once, for as many bytes as are read at most, and some in which the end is looked for.
fn read_binary<R: Read + Drop>(heap: Global, reader: R) -> io::Result<Vec<u8>>
    ensures { IfOk result (λ log. IfSome (R.remaining reader) (λ bytes. log.items ≡ take 60000 bytes)) }
{
    let mut log = Vec::with_capacity(heap, LIMIT + 64)?;
    reader.take(60_000).read_to_end(&mut log)?;
    Ok(log)
}

fn read_all<R: Read + Drop>(heap: Global, mut reader: R) -> io::Result<Vec<u8>>
    ensures { IfOk result (λ all. IfSome (R.remaining reader) (λ bytes. all.items ≡ bytes)) }
{
    let mut bytes = Vec::new(heap);
    reader.read_to_end(&mut bytes)?;
    Ok(bytes)
}

// The log that a text tells.
fn read_text(heap: Global, text: &[u8]) -> Result<Vec<u8>, LogError>
    ensures log { IfOk result (λ log. Reads Form.Hex text.now log.items) }
    ensures fault { IfErr result (λ e. IsFaultOf e Form.Hex text.now) }
{
    let text = without_mark(text);
    match hextext::read(heap, text) {
        Ok(mut log) => {
            log.truncate(LIMIT);
            Ok(log)
        }
        Err(fault) => Err(text_error(heap, text, fault)),
    }
}

// That a text is at fault, with the word about the place.
fn text_error(heap: Global, text: &[u8], fault: ReadError) -> LogError
    ensures { IsFaultIn text.now fault result }
{
    let Some(place) = fault.place() else {
        return LogError::NoMemory;
    };
    match Vec::from_slice(heap, word_about(text, place.offset)) {
        Ok(word) => LogError::Text { fault, word },
        Err(_) => LogError::NoMemory,
    }
}
