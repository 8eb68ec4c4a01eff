// How a text is read.
ghost use Rattle.std.specs.Prelude.{◌≡◌, ◌<◌, ◌⊎◌, [], IsOk, IfOk, IfErr};
ghost use Rattle.hextext.specs.Reading.{after, is_gap, between, second, within_comment, step, meaning, SaysAByte, HighFits};
ghost use Rattle.hextext.specs.RoundTrip.{RoundTrip};

use crate::digits::digit_value;
use crate::error::{Position, ReadError};
use crate::mode::{Mode, Step};
use std::alloc::Global;

// The bytes of a text. A byte is two digits that stand together, in either case. Spaces, tabs, carriage returns and line
// breaks are free between bytes, and `#` begins a comment that ends with its line.
pub fn read(heap: Global, text: &[u8]) -> Result<Vec<u8>, ReadError>
    ensures ok { IfOk result (λ bytes. meaning text.now ≡ Ok bytes.items) }
    ensures fault { IfErr result (λ e. ((e ≡ ReadError.NoMemory) × SaysAByte text.now) ⊎ (meaning text.now ≡ Err e)) }
    ensures memory { meaning text.now ≡ Ok [] → IsOk result }
    ensures round_trip { RoundTrip }
{
    let mut bytes = Vec::new(heap);
    let mut mode = Mode::Between;
    let mut at = Position {
        line: 1,
        column: 1,
        offset: 0,
    };
    for byte in text {
        mode = match step(mode, at, *byte)? {
            Step::To(next) => next,
            Step::Byte(value) => {
                bytes.push(value)?;
                Mode::Between
            }
        };
        at = after(at, *byte);
    }
    match mode {
        Mode::Second { first, .. } => Err(ReadError::LoneDigit(first)),
        Mode::Between | Mode::Comment => Ok(bytes),
    }
}

// The place after a byte of a text.
fn after(at: Position, byte: u8) -> Position
    requires line { at.line < usize.MAX }
    requires column { at.column < usize.MAX }
    requires offset { at.offset < usize.MAX }
    ensures { result ≡ after at byte }
{
    let offset = at.offset + 1;
    if byte == b'\n' {
        Position {
            line: at.line + 1,
            column: 1,
            offset,
        }
    } else {
        Position {
            line: at.line,
            column: at.column + 1,
            offset,
        }
    }
}

fn step(mode: Mode, at: Position, byte: u8) -> Result<Step, ReadError>
    requires { HighFits mode }
    ensures { result ≡ step mode at byte }
{
    match mode {
        Mode::Between => between(at, byte),
        Mode::Second { high, first } => second(high, first, at, byte),
        Mode::Comment => Ok(within_comment(byte)),
    }
}

fn between(at: Position, byte: u8) -> Result<Step, ReadError>
    ensures { result ≡ between at byte }
{
    if is_gap(byte) {
        return Ok(Step::To(Mode::Between));
    }
    if byte == b'#' {
        return Ok(Step::To(Mode::Comment));
    }
    match digit_value(byte) {
        Some(high) => Ok(Step::To(Mode::Second { high, first: at })),
        None => Err(ReadError::BadDigit(at)),
    }
}

fn second(high: u8, first: Position, at: Position, byte: u8) -> Result<Step, ReadError>
    requires { high < 16 }
    ensures { result ≡ second high first at byte }
{
    match digit_value(byte) {
        Some(low) => Ok(Step::Byte(high * 16 + low)),
        None if is_gap(byte) || byte == b'#' => Err(ReadError::LoneDigit(first)),
        None => Err(ReadError::BadDigit(at)),
    }
}

fn within_comment(byte: u8) -> Step
    ensures { result ≡ within_comment byte }
{
    match byte {
        b'\n' => Step::To(Mode::Between),
        _ => Step::To(Mode::Comment),
    }
}

// Whether a byte may stand between bytes.
pub(crate) fn is_gap(byte: u8) -> bool
    ensures { result ≡ is_gap byte }
{
    matches!(byte, b' ' | b'\t' | b'\r' | b'\n')
}
