// The panel at 20.
use crate::fixture::Input::Put;
use crate::fixture::case;
use std::test::*;

#[test]
fn status_and_type(rt: HostRuntime) -> Result<(), Fail> {
    case(
        &rt,
        &[
            Put([3, 0x20, 0, 4, 0xF4, 0x0F, 0x30, 0xC1, 0, 0, 0, 0]),
            Put([3, 0x20, 0, 2, 0xFA, 0x00, 0, 0, 0, 0, 0, 0]),
            Put([0, 0x20, 1, 0, 0, 0, 0, 0, 0, 0, 0, 0]),
        ],
        &[
            [3, 0x20, 0, 6, 0xED, 0x00, 0x0F, 0x30, 0xC1, 0, 0, 0],
            [3, 0x20, 0, 8, 0xFF, 0x0B, 0x0F, 0x30, 0xC1, 8, 17, 0],
        ],
    )
}
