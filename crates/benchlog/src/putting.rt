// Frames as bytes, and a frame as a put item.
ghost use Rattle.std.specs.Prelude.{◌≡◌, ◌∷◌, length, take, drop, OnOk};
ghost use Rattle.bus.specs.Frames.{of_body};
ghost use Rattle.bus.specs.Refusals.{refusal_number};
ghost use Rattle.house.specs.Faults.{first_number};
ghost use Rattle.benchlog.specs.Bytes.{body_of};
ghost use Rattle.benchlog.specs.PutItems.{put_item_checks, PutItemNumbersRise, WritesItem, ReadsBack};

use bus::{Frame, Refusal};

// A byte that says what comes, and then a frame.
pub(crate) fn tagged(tag: u8, frame: &Frame) -> [u8; 13]
    ensures value { result ≡ tag ∷ body_of frame.now }
    ensures told { of_body (drop 1 result) ≡ frame.now }
{
    let Frame {
        priority,
        address,
        rtr,
        count,
        bytes: [a, b, c, d, e, f, g, h],
    } = *frame;
    [tag, priority, address, rtr, count, a, b, c, d, e, f, g, h]
}

/// Writes the frame as a put item to the front of a buffer with 13 places or more.
///
/// # Errors
///
/// 4, if the buffer is shorter; 5, if it is not and the frame is not well formed. The buffer is as it was then.
pub fn write_put_item(frame: &Frame, buffer: &mut [u8]) -> Result<(), Refusal>
    ensures number { refusal_number result ≡ first_number (put_item_checks frame.now (length buffer.old)) }
    ensures rises { PutItemNumbersRise }
    ensures item { WritesItem frame.now result buffer.old buffer.new }
    ensures round_trip { OnOk result (ReadsBack frame.now (take 13 buffer.new)) }
{
    if buffer.len() < 13 {
        return Err(Refusal::ShortBuffer);
    }
    if !frame.is_well_formed() {
        return Err(Refusal::IllFormedFrame);
    }
    buffer[..13].copy_from_slice(&tagged(1, frame));
    Ok(())
}
