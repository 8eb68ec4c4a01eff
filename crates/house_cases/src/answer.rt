// What a house answers, in the words of the table.
use crate::asked::Asked;
use anyhow::{Context, Result};
use bus::{Frame, Refusal};
use house::{Call, House};
use runs::{Reply, number_sent, perform};
use station::Station;
use std::alloc::Global;
use std::fmt::Write;
use words::Hex;

pub(crate) const NO_MEMORY: &str = "no memory";

// An answer, and behind it each frame that was sent.
pub(crate) fn told(
    heap: Global,
    answer: &Result<Reply, Refusal>,
    sent: &[Frame],
) -> Result<String> {
    let mut text = match answer {
        Ok(Reply::Accepted) => format!(in heap; "ok")?,
        Ok(Reply::Counts { sent, pending }) => format!(in heap; "{sent} {pending}")?,
        Ok(Reply::Cleared(count)) => format!(in heap; "{count}")?,
        Ok(Reply::Byte(Some(byte))) => format!(in heap; "{byte:02X}")?,
        Ok(Reply::Byte(None)) => format!(in heap; "none")?,
        Err(refusal) => {
            let number = refusal.number();
            format!(in heap; "refused {number}")?
        }
    };
    for frame in sent {
        let hex = Hex(*frame);
        write!(text, ", {hex}")?;
    }
    Ok(text)
}

// Asks a house. An answer also tells of places of the buffer that should be as they were and are not, and of a refusal
// that changed how many frames are pending.
pub(crate) fn answer<S: Station>(
    heap: Global,
    house: &mut House<S>,
    asked: Asked,
) -> Result<String> {
    match asked {
        Asked::Call { call, places } => made(heap, house, call, places),
        Asked::Group { address, places } => listed(heap, house, address, places),
        Asked::Pending => {
            let pending = house.pending();
            Ok(format!(in heap; "{pending}")?)
        }
        Asked::Seats => counted(heap, house.seats()),
    }
}

// How many seats there are, or the builder's fault.
fn counted(heap: Global, seats: Result<usize, Refusal>) -> Result<String> {
    match seats {
        Ok(count) => Ok(format!(in heap; "{count}")?),
        Err(refusal) => {
            let number = refusal.number();
            Ok(format!(in heap; "refused {number}")?)
        }
    }
}

// What stands in each place of a buffer before a call. No module sends it.
fn mark() -> Frame {
    Frame::from([2, 0x99, 0, 8, 1, 2, 3, 4, 5, 6, 7, 8])
}

fn made<S: Station>(
    heap: Global,
    house: &mut House<S>,
    call: Call,
    places: usize,
) -> Result<String> {
    let Ok(mut buffer) = vec![in heap; mark(); places] else {
        return Ok(format!(in heap; "{NO_MEMORY}")?);
    };
    let pending = house.pending();
    let answer = perform(house, call, buffer.as_mut_slice());
    let (sent, rest) = buffer
        .as_slice()
        .split_at_checked(number_sent(&answer))
        .context("more frames sent than there are places")?;
    let mut text = told(heap, &answer, sent)?;
    if rest.iter().any(|frame| *frame != mark()) || answer.is_err() && house.pending() != pending {
        write!(text, ", and changed more")?;
    }
    Ok(text)
}

// How many addresses the group has, and these.
fn listed<S: Station>(
    heap: Global,
    house: &House<S>,
    address: u8,
    places: usize,
) -> Result<String> {
    let mut buffer = vec![in heap; 0xEE; places]?;
    let (mut text, count) = match house.group(address, buffer.as_mut_slice()) {
        Ok(count) => (format!(in heap; "{count}:")?, count),
        Err(refusal) => {
            let number = refusal.number();
            (format!(in heap; "refused {number}")?, 0)
        }
    };
    for (index, byte) in buffer.iter().enumerate() {
        if index < count || *byte != 0xEE {
            write!(text, " {byte:02X}")?;
        }
    }
    Ok(text)
}
