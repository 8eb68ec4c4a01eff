// How a call is made that is given as a value.
ghost use Rattle.std.specs.Prelude.{◌≡◌, length, OnErr};
ghost use Rattle.house.specs.Houses.{turn_of, TakesTurn};
ghost use Rattle.house.specs.Turns.{with_places};
ghost use Rattle.runs.specs.Making.{places_of, sent_number};
ghost use Rattle.runs.specs.Replays.{shown_reply};
ghost use Rattle.house.specs.Answers.{shown_counts};

use crate::entry::Reply;
use bus::{Frame, Refusal};
use house::{Call, House};
use station::Station;

// How many places the call's buffer has.
pub(crate) fn places(call: Call) -> usize
    ensures { result ≡ places_of call }
{
    match call {
        Call::Push { places, .. } | Call::Second { places } | Call::Step { places } => places,
        Call::Put(_) | Call::Clear | Call::Record { .. } => 0,
    }
}

/// Makes the call with that buffer, however many places the call says.
pub fn perform<S: Station>(
    house: &mut House<S>,
    call: Call,
    buffer: &mut [Frame],
) -> Result<Reply, Refusal>
    ensures unchanged { OnErr result (house.new ≡ house.old) }
    ensures turn { TakesTurn S.seats (turn_of S.seats house.old (with_places (length buffer.old) call)) (shown_reply result) house.new buffer.old buffer.new }
{
    match call {
        Call::Put(frame) => {
            house.put(frame)?;
            Ok(Reply::Accepted)
        }
        Call::Push {
            address,
            channel,
            edge,
            ..
        } => counts(house.push(address, channel, edge, buffer)),
        Call::Second { .. } => counts(house.second(buffer)),
        Call::Step { .. } => counts(house.step(buffer)),
        Call::Clear => Ok(Reply::Cleared(house.clear()?)),
        Call::Record { address, place } => Ok(Reply::Byte(house.record(address, place))),
    }
}

// A pair of counts as a reply.
fn counts(outcome: Result<(usize, usize), Refusal>) -> Result<Reply, Refusal>
    ensures { shown_reply result ≡ shown_counts outcome }
{
    let (sent, pending) = outcome?;
    Ok(Reply::Counts { sent, pending })
}

// How many frames a call sent.
pub fn number_sent(answer: &Result<Reply, Refusal>) -> usize
    ensures { result ≡ sent_number (shown_reply answer.now) }
{
    match answer {
        Ok(Reply::Counts { sent, .. }) => *sent,
        _ => 0,
    }
}
