// The relay at 10. Pair p of table t of channel c stands at cell 256 (c - 1) + 30 t + 2 p.
use crate::fixture::Input::{Push, Put};
use crate::fixture::{Input, case};
use std::test::*;

// Writes one pair, and an unused one after it.
pub(crate) fn link(high: u8, low: u8, address: u8, bits: u8) -> Input {
    Put([3, 0x10, 0, 7, 0xCA, high, low, address, bits, 0xFF, 0xFF, 0])
}

// What the relay answers to it.
pub(crate) fn linked(high: u8, low: u8, address: u8, bits: u8) -> [u8; 12] {
    [3, 0x10, 0, 7, 0xCC, high, low, address, bits, 0xFF, 0xFF, 0]
}

// The press of button 1 on the panel.
pub(crate) const PRESSED: [u8; 12] = [0, 0x20, 0, 4, 0x00, 0x01, 0, 0, 0, 0, 0, 0];

pub(crate) const RELEASED: [u8; 12] = [0, 0x20, 0, 4, 0x00, 0, 0x01, 0, 0, 0, 0, 0];

// The last pair of the last table of channel 4 starts timer 2, which takes the highest time.
#[test]
fn last_pair(rt: HostRuntime) -> Result<(), Fail> {
    case(
        &rt,
        &[link(0x03, 0xEE, 0x20, 0x01), Push(0x20, 1, 0)],
        &[
            linked(0x03, 0xEE, 0x20, 0x01),
            PRESSED,
            [3, 0x10, 0, 8, 0xFB, 0x08, 0, 3, 0, 0xFF, 0xFF, 0xFE],
            [0, 0x10, 0, 4, 0x00, 0x08, 0, 0, 0, 0, 0, 0],
            [3, 0x20, 0, 2, 0xF6, 0x01, 0, 0, 0, 0, 0, 0],
        ],
    )
}

// The toggle timer table starts timer 1 of channel 4 at the lowest time, and opens the channel the next time.
#[test]
fn toggle_timer(rt: HostRuntime) -> Result<(), Fail> {
    case(
        &rt,
        &[
            link(0x03, 0x78, 0x20, 0x01),
            Push(0x20, 1, 0),
            Push(0x20, 1, 1),
            Push(0x20, 1, 0),
        ],
        &[
            linked(0x03, 0x78, 0x20, 0x01),
            PRESSED,
            [3, 0x10, 0, 8, 0xFB, 0x08, 0, 3, 0, 0, 0, 1],
            [0, 0x10, 0, 4, 0x00, 0x08, 0, 0, 0, 0, 0, 0],
            [3, 0x20, 0, 2, 0xF6, 0x01, 0, 0, 0, 0, 0, 0],
            RELEASED,
            PRESSED,
            [3, 0x10, 0, 8, 0xFB, 0x08, 0, 0, 0, 0, 0, 0],
            [0, 0x10, 0, 4, 0x00, 0, 0x08, 0, 0, 0, 0, 0],
            [3, 0x20, 0, 2, 0xF5, 0x01, 0, 0, 0, 0, 0, 0],
        ],
    )
}

// One press moves two channels: statuses first, then one report, then the lamps, in channel order.
#[test]
fn two_channels_at_once(rt: HostRuntime) -> Result<(), Fail> {
    case(
        &rt,
        &[
            Put([3, 0x10, 0, 2, 0x02, 0x04, 0, 0, 0, 0, 0, 0]),
            link(0x00, 0xB4, 0x20, 0x01),
            link(0x02, 0x3C, 0x20, 0x03),
            Push(0x20, 1, 0),
        ],
        &[
            [3, 0x10, 0, 8, 0xFB, 0x04, 0, 1, 0, 0, 0, 0],
            [0, 0x10, 0, 4, 0x00, 0x04, 0, 0, 0, 0, 0, 0],
            linked(0x00, 0xB4, 0x20, 0x01),
            linked(0x02, 0x3C, 0x20, 0x03),
            PRESSED,
            [3, 0x10, 0, 8, 0xFB, 0x01, 0, 3, 0, 0, 0, 5],
            [3, 0x10, 0, 8, 0xFB, 0x04, 0, 0, 0, 0, 0, 0],
            [0, 0x10, 0, 4, 0x00, 0x01, 0x04, 0, 0, 0, 0, 0],
            [3, 0x20, 0, 2, 0xF6, 0x01, 0, 0, 0, 0, 0, 0],
            [3, 0x20, 0, 2, 0xF5, 0x03, 0, 0, 0, 0, 0, 0],
        ],
    )
}
