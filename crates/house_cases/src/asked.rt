// What a step asks of a house.
use bus::Frame;
use house::Call;

// A call with the places of its buffer, the group of an address, how many frames are pending, or how many seats there are.
#[derive(Clone, Copy)]
pub(crate) enum Asked {
    Call { call: Call, places: usize },
    Group { address: u8, places: usize },
    Pending,
    Seats,
}

impl Asked {
    // Addresses, channels, edges and bytes of frames are hexadecimal, and all else is decimal.
    pub(crate) fn read(text: &str) -> Option<Self> {
        let (verb, rest) = text.split_once(' ').unwrap_or((text, ""));
        if verb == "pending" {
            return Some(Asked::Pending);
        }
        if verb == "seats" {
            return Some(Asked::Seats);
        }
        if verb == "group" {
            let (address, places) = at(rest)?;
            return Some(Asked::Group { address, places });
        }
        let (call, places) = call(verb, rest)?;
        Some(Asked::Call { call, places })
    }
}

// A call, and how many places its buffer has.
fn call(verb: &str, rest: &str) -> Option<(Call, usize)> {
    match verb {
        "put" => Some((Call::Put(frame(rest)?), 0)),
        "push" => push(rest),
        "second" => {
            let places = rest.parse().ok()?;
            Some((Call::Second { places }, places))
        }
        "step" => {
            let places = rest.parse().ok()?;
            Some((Call::Step { places }, places))
        }
        "clear" => Some((Call::Clear, 0)),
        "record" => {
            let (address, place) = at(rest)?;
            Some((Call::Record { address, place }, 0))
        }
        _ => None,
    }
}

fn push(text: &str) -> Option<(Call, usize)> {
    let mut words = text.split(' ');
    let address = byte(words.next()?)?;
    let channel = byte(words.next()?)?;
    let edge = byte(words.next()?)?;
    let places = words.next()?.parse().ok()?;
    let push = Call::Push {
        address,
        channel,
        edge,
        places,
    };
    Some((push, places))
}

// An address and a number.
fn at(text: &str) -> Option<(u8, usize)> {
    let (address, number) = text.split_once(' ')?;
    Some((byte(address)?, number.parse().ok()?))
}

pub(crate) fn byte(word: &str) -> Option<u8> {
    u8::from_str_radix(word, 16).ok()
}

// It may end early; the rest of it is 0.
fn frame(text: &str) -> Option<Frame> {
    let mut body = [0; 12];
    for (place, word) in body.iter_mut().zip(text.split(' ')) {
        *place = byte(word)?;
    }
    Some(Frame::from(body))
}
