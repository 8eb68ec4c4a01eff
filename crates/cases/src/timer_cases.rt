// The tables of the relay at 10 that have to do with timers: 4 and 5 toggle timer 1 and 2, 6 and 7 start them. The button
// is number 1 of the panel at 20. Each channel has its own two times here, so a time that is told tells whose it is.
use crate::fixture::Input::{Push, Put, Second};
use crate::fixture::{Input, timer_case};
use crate::relay_cases::{PRESSED, RELEASED, link, linked};
use relay::{PerChannel, Timers};
use std::process::Abort;
use std::test::*;

const DIFFERENT: PerChannel<Timers> = PerChannel {
    one: Timers {
        first: 2,
        second: 0x010203,
    },
    two: Timers {
        first: 0x040506,
        second: 0x070809,
    },
    three: Timers {
        first: 0x0A0B0C,
        second: 3,
    },
    four: Timers {
        first: 0x0D0E0F,
        second: 0x101112,
    },
};

// Of these, 0 and 1 work as 1, and FFFFFE and all above it as FFFFFE.
const OUT_OF_RANGE: PerChannel<Timers> = PerChannel {
    one: Timers {
        first: 0,
        second: 0xFFFFFF,
    },
    two: Timers {
        first: 0x0100_0000,
        second: 0,
    },
    three: Timers {
        first: 1,
        second: 0xFFFFFE,
    },
    four: Timers {
        first: 0xFFFF_FFFF,
        second: 0x0100_0005,
    },
};

const NONE: [u8; 3] = [0; 3];

const ONE: [u8; 3] = [0, 0, 1];

const HIGHEST: [u8; 3] = [0xFF, 0xFF, 0xFE];

const PRESS: Input = Push(0x20, 1, 0);

const RELEASE: Input = Push(0x20, 1, 1);

// Closes channels.
fn close(bits: u8) -> Input {
    Put([3, 0x10, 0, 2, 0x02, bits, 0, 0, 0, 0, 0, 0])
}

// Makes channels run for 9 seconds.
fn run(bits: u8) -> Input {
    Put([3, 0x10, 0, 5, 0x03, bits, 0, 0, 9, 0, 0, 0])
}

// Asks for the status of channels.
fn ask(bits: u8) -> Input {
    Put([3, 0x10, 0, 2, 0xFA, bits, 0, 0, 0, 0, 0, 0])
}

// The status of a channel: 0 open, 1 closed, 3 running, with the time left.
fn status(bit: u8, state: u8, [high, mid, low]: [u8; 3]) -> [u8; 12] {
    [3, 0x10, 0, 8, 0xFB, bit, 0, state, 0, high, mid, low]
}

// Which channels closed, and which opened.
fn switched(closed: u8, opened: u8) -> [u8; 12] {
    [0, 0x10, 0, 4, 0x00, closed, opened, 0, 0, 0, 0, 0]
}

// The lamps of the panel: on by F6, out by F5.
fn lamps(command: u8, bits: u8) -> [u8; 12] {
    [3, 0x20, 0, 2, command, bits, 0, 0, 0, 0, 0, 0]
}

// By a pair in a table that toggles a timer, an open channel runs for this time, and then opens.
fn toggles_open(
    rt: &(impl Abort + AllocGlobal),
    [high, low]: [u8; 2],
    channel: u8,
    bits: u8,
    time: [u8; 3],
) -> Result<(), Fail> {
    timer_case(
        rt,
        DIFFERENT,
        &[link(high, low, 0x20, bits), PRESS, RELEASE, PRESS],
        &[
            linked(high, low, 0x20, bits),
            PRESSED,
            status(channel, 3, time),
            switched(channel, 0),
            lamps(0xF6, bits),
            RELEASED,
            PRESSED,
            status(channel, 0, NONE),
            switched(0, channel),
            lamps(0xF5, bits),
        ],
    )
}

// One that a command closed, with this state and time, opens as well.
fn toggles_closed(
    rt: &(impl Abort + AllocGlobal),
    [high, low]: [u8; 2],
    channel: u8,
    command: Input,
    told: [u8; 12],
) -> Result<(), Fail> {
    timer_case(
        rt,
        DIFFERENT,
        &[link(high, low, 0x20, 0x01), command, PRESS],
        &[
            linked(high, low, 0x20, 0x01),
            told,
            switched(channel, 0),
            PRESSED,
            status(channel, 0, NONE),
            switched(0, channel),
            lamps(0xF5, 0x01),
        ],
    )
}

fn toggles(
    rt: &(impl Abort + AllocGlobal),
    cell: [u8; 2],
    channel: u8,
    bits: u8,
    time: [u8; 3],
) -> Result<(), Fail> {
    toggles_open(rt, cell, channel, bits, time)?;
    toggles_closed(rt, cell, channel, close(channel), status(channel, 1, NONE))?;
    toggles_closed(
        rt,
        cell,
        channel,
        run(channel),
        status(channel, 3, [0, 0, 9]),
    )
}

// Table 4 of channel 2.
#[test]
fn toggle_timer_1(rt: HostRuntime) -> Result<(), Fail> {
    toggles(&rt, [0x01, 0x78], 0x02, 0x81, [0x04, 0x05, 0x06])
}

// Table 5 of channels 1 and 3.
#[test]
fn toggle_timer_2(rt: HostRuntime) -> Result<(), Fail> {
    toggles(&rt, [0x00, 0x96], 0x01, 0x21, [0x01, 0x02, 0x03])?;
    toggles(&rt, [0x02, 0x96], 0x04, 0x11, [0, 0, 3])
}

// By a pair in a table that starts a timer: whatever the channel does, it runs for the whole time then, and only one that was
// open tells it. A second later `left` is left.
fn starts(
    rt: &(impl Abort + AllocGlobal),
    [high, low]: [u8; 2],
    channel: u8,
    time: [u8; 3],
    left: [u8; 3],
) -> Result<(), Fail> {
    timer_case(
        rt,
        DIFFERENT,
        &[
            link(high, low, 0x20, 0x03),
            PRESS,
            Second,
            ask(channel),
            RELEASE,
            PRESS,
            ask(channel),
            run(channel),
            RELEASE,
            PRESS,
            ask(channel),
            close(channel),
            RELEASE,
            PRESS,
            ask(channel),
        ],
        &[
            linked(high, low, 0x20, 0x03),
            PRESSED,
            status(channel, 3, time),
            switched(channel, 0),
            lamps(0xF6, 0x03),
            status(channel, 3, left),
            RELEASED,
            PRESSED,
            status(channel, 3, time),
            RELEASED,
            PRESSED,
            status(channel, 3, time),
            RELEASED,
            PRESSED,
            status(channel, 3, time),
        ],
    )
}

// Table 6 of channel 3.
#[test]
fn start_timer_1(rt: HostRuntime) -> Result<(), Fail> {
    starts(
        &rt,
        [0x02, 0xB4],
        0x04,
        [0x0A, 0x0B, 0x0C],
        [0x0A, 0x0B, 0x0B],
    )
}

// Table 7 of channel 2.
#[test]
fn start_timer_2(rt: HostRuntime) -> Result<(), Fail> {
    starts(
        &rt,
        [0x01, 0xD2],
        0x02,
        [0x07, 0x08, 0x09],
        [0x07, 0x08, 0x08],
    )
}

// One press starts four channels, each by the table that begins at this cell of its quarter, for this time: nine frames.
fn starts_four(
    rt: &(impl Abort + AllocGlobal),
    timers: PerChannel<Timers>,
    cells: [u8; 4],
    times: [[u8; 3]; 4],
) -> Result<(), Fail> {
    timer_case(
        rt,
        timers,
        &[
            link(0x00, cells[0], 0x20, 0x01),
            link(0x01, cells[1], 0x20, 0x03),
            link(0x02, cells[2], 0x20, 0x05),
            link(0x03, cells[3], 0x20, 0x09),
            PRESS,
        ],
        &[
            linked(0x00, cells[0], 0x20, 0x01),
            linked(0x01, cells[1], 0x20, 0x03),
            linked(0x02, cells[2], 0x20, 0x05),
            linked(0x03, cells[3], 0x20, 0x09),
            PRESSED,
            status(0x01, 3, times[0]),
            status(0x02, 3, times[1]),
            status(0x04, 3, times[2]),
            status(0x08, 3, times[3]),
            switched(0x0F, 0),
            lamps(0xF6, 0x01),
            lamps(0xF6, 0x03),
            lamps(0xF6, 0x05),
            lamps(0xF6, 0x09),
        ],
    )
}

// Each of tables 4 to 7 on each channel.
#[test]
fn tables_on_channels(rt: HostRuntime) -> Result<(), Fail> {
    let firsts_and_seconds = [
        [0, 0, 2],
        [0x07, 0x08, 0x09],
        [0x0A, 0x0B, 0x0C],
        [0x10, 0x11, 0x12],
    ];
    let seconds_and_firsts = [
        [0x01, 0x02, 0x03],
        [0x04, 0x05, 0x06],
        [0, 0, 3],
        [0x0D, 0x0E, 0x0F],
    ];
    starts_four(&rt, DIFFERENT, [0x78, 0x96, 0xB4, 0xD2], firsts_and_seconds)?;
    starts_four(&rt, DIFFERENT, [0x96, 0xB4, 0xD2, 0x78], seconds_and_firsts)?;
    starts_four(&rt, DIFFERENT, [0xB4, 0xD2, 0x78, 0x96], firsts_and_seconds)?;
    starts_four(&rt, DIFFERENT, [0xD2, 0x78, 0x96, 0xB4], seconds_and_firsts)
}

// Each of tables 4 to 7 with times out of range.
#[test]
fn out_of_range(rt: HostRuntime) -> Result<(), Fail> {
    let firsts = [ONE, HIGHEST, ONE, HIGHEST];
    let seconds = [HIGHEST, ONE, HIGHEST, HIGHEST];
    starts_four(&rt, OUT_OF_RANGE, [0x78; 4], firsts)?;
    starts_four(&rt, OUT_OF_RANGE, [0x96; 4], seconds)?;
    starts_four(&rt, OUT_OF_RANGE, [0xB4; 4], firsts)?;
    starts_four(&rt, OUT_OF_RANGE, [0xD2; 4], seconds)
}

// Timer 1 of channel 1 is 2 seconds: they are over with the second one, without a lamp frame. A time of 0, which works as 1, is
// over with the first.
#[test]
fn timer_ends(rt: HostRuntime) -> Result<(), Fail> {
    let pair = link(0x00, 0x78, 0x20, 0x01);
    let written = linked(0x00, 0x78, 0x20, 0x01);
    timer_case(
        &rt,
        DIFFERENT,
        &[pair, PRESS, Second, ask(0x01), Second, Second],
        &[
            written,
            PRESSED,
            status(0x01, 3, [0, 0, 2]),
            switched(0x01, 0),
            lamps(0xF6, 0x01),
            status(0x01, 3, ONE),
            status(0x01, 0, NONE),
            switched(0, 0x01),
        ],
    )?;
    timer_case(
        &rt,
        OUT_OF_RANGE,
        &[pair, PRESS, Second, Second],
        &[
            written,
            PRESSED,
            status(0x01, 3, ONE),
            switched(0x01, 0),
            lamps(0xF6, 0x01),
            status(0x01, 0, NONE),
            switched(0, 0x01),
        ],
    )
}
