// Houses of a few modules, and the means to try something on them.
use bus::{Frame, Refusal};
use buttons::ButtonInterface;
use house::House;
use interface::{InterfaceSetup, Serial};
use kinds::{new_button_interface, new_panel, new_relay};
use module::Seat;
use panel::{Panel, PanelSetup};
use relay::{PerChannel, Relay, RelaySetup, Timers};
use station::{Rail, Sieve, Station};
use std::alloc::Global;
use std::process::Abort;
use std::test::*;

// A panel at 20, and a relay at 10 under a sieve.
pub(crate) type Modules = Rail<Seat<Panel>, Sieve<Seat<Relay>>>;

// A panel at 30 and a button interface at 20.
pub(crate) type Buttons = Rail<Seat<Panel>, Seat<ButtonInterface>>;

// Timer 1 runs for 5 seconds and timer 2 for 70,000; those of channel 4 are out of range at both ends.
const TIMERS: PerChannel<Timers> = PerChannel {
    one: SHORT_AND_LONG,
    two: SHORT_AND_LONG,
    three: SHORT_AND_LONG,
    four: Timers {
        first: 0,
        second: 0xFFFF_FFFF,
    },
};

const SHORT_AND_LONG: Timers = Timers {
    first: 5,
    second: 70_000,
};

fn modules(timers: PerChannel<Timers>) -> Modules {
    Rail {
        first: new_panel(0x20, PanelSetup { year: 8, week: 17 }),
        second: Sieve {
            below: new_relay(0x10, RelaySetup { timers }),
        },
    }
}

// At 20, with setup bytes that differ from each other.
pub(crate) fn interface() -> Seat<ButtonInterface> {
    let setup = InterfaceSetup {
        serial: Serial {
            high: 0x12,
            low: 0x34,
        },
        map: 2,
        year: 11,
        week: 22,
    };
    new_button_interface(0x20, setup)
}

fn buttons() -> Buttons {
    Rail {
        first: new_panel(0x30, PanelSetup { year: 8, week: 17 }),
        second: interface(),
    }
}

fn house_over<S: Station + Drop>(heap: Global, station: S) -> Result<House<S>, Fail> {
    House::new(heap, station).map_err(|_| Fail::new("no memory"))
}

// Something that is done: a frame is put, a button pushed (address, channel and edge, as the house takes them), or a second
// passes.
#[derive(Clone, Copy)]
pub(crate) enum Input {
    Put([u8; 12]),
    Push(u8, u8, u8),
    Second,
}

// Does each input on a new house with the panel and the relay; the frames sent must be these, in order.
pub(crate) fn case(
    rt: &(impl Abort + AllocGlobal),
    inputs: &[Input],
    expected: &[[u8; 12]],
) -> Result<(), Fail> {
    timer_case(rt, TIMERS, inputs, expected)
}

// The same where the relay has other timers.
pub(crate) fn timer_case(
    rt: &(impl Abort + AllocGlobal),
    timers: PerChannel<Timers>,
    inputs: &[Input],
    expected: &[[u8; 12]],
) -> Result<(), Fail> {
    check_case(rt, modules(timers), inputs, expected)
}

// The same with the panel and the button interface.
pub(crate) fn button_case(
    rt: &(impl Abort + AllocGlobal),
    inputs: &[Input],
    expected: &[[u8; 12]],
) -> Result<(), Fail> {
    check_case(rt, buttons(), inputs, expected)
}

// After each input all frames pass.
fn check_case<S: Station + Drop>(
    rt: &(impl Abort + AllocGlobal),
    station: S,
    inputs: &[Input],
    expected: &[[u8; 12]],
) -> Result<(), Fail> {
    let mut house = house_over(rt.alloc(), station)?;
    let mut sent = Vec::new(rt.alloc());
    for input in inputs {
        act(&mut house, *input, &mut sent)?;
        settle(&mut house, &mut sent)?;
    }
    assert_eq!(rt; sent.len(), expected.len());
    for (got, body) in sent.iter().zip(expected.iter()) {
        assert_eq!(rt; *got, Frame::from(*body));
    }
    Ok(())
}

fn act<S: Station>(house: &mut House<S>, input: Input, sent: &mut Vec<Frame>) -> Result<(), Fail> {
    let mut buffer = [Frame::default(); 18];
    match input {
        Input::Put(body) => served(house.put(Frame::from(body))),
        Input::Push(address, channel, edge) => {
            let (count, _) = served(house.push(address, channel, edge, &mut buffer))?;
            keep(&buffer, count, sent)
        }
        Input::Second => {
            let (count, _) = served(house.second(&mut buffer))?;
            keep(&buffer, count, sent)
        }
    }
}

fn settle<S: Station>(house: &mut House<S>, sent: &mut Vec<Frame>) -> Result<(), Fail> {
    for _ in 0..256 {
        if house.pending() == 0 {
            break;
        }
        let mut buffer = [Frame::default(); 18];
        let (count, _) = served(house.step(&mut buffer))?;
        keep(&buffer, count, sent)?;
    }
    Ok(())
}

fn keep(buffer: &[Frame], count: usize, sent: &mut Vec<Frame>) -> Result<(), Fail> {
    sent.extend(buffer.iter().take(count))?;
    Ok(())
}

// What a call answered, unless it was refused.
fn served<T>(answer: Result<T, Refusal>) -> Result<T, Fail> {
    answer.map_err(|_| Fail::new("refused"))
}
