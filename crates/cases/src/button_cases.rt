// The button interface at 20, with a panel at 30 on the same bus.
use crate::fixture::Input::Put;
use crate::fixture::{Input, button_case, interface};
use bus::{Frame, Outbox};
use buttons::ButtonInterface;
use module::Seat;
use station::{Event, Station};
use std::alloc::Global;
use std::process::Abort;
use std::test::*;

const ASK_STATUS: Input = Put([3, 0x20, 0, 2, 0xFA, 0, 0, 0, 0, 0, 0, 0]);

#[test]
fn status_and_type(rt: HostRuntime) -> Result<(), Fail> {
    button_case(
        &rt,
        &[
            ASK_STATUS,
            Put([3, 0x20, 1, 0, 0, 0, 0, 0, 0, 0, 0, 0]),
            Put([3, 0x00, 1, 0, 0, 0, 0, 0, 0, 0, 0, 0]),
        ],
        &[
            [3, 0x20, 0, 7, 0xED, 0, 0xFF, 0xFF, 0, 0, 0, 0],
            [3, 0x20, 0, 7, 0xFF, 0x16, 0x12, 0x34, 2, 11, 22, 0],
        ],
    )
}

// Lets an event come to the seat; what it sends is of no interest here.
fn act(heap: Global, seat: &mut Seat<ButtonInterface>, event: Event) -> Result<(), Fail> {
    let mut outbox = Outbox::new(heap, 9)?;
    seat.act(event, &mut outbox);
    Ok(())
}

// The state bytes must be these, and the record must end with them.
fn check_state(
    rt: &impl Abort,
    seat: &Seat<ButtonInterface>,
    expected: [u8; 32],
) -> Result<(), Fail> {
    for (place, byte) in (1024..1056).zip(expected.iter()) {
        assert_eq!(rt; seat.byte(0x20, place), Some(*byte));
    }
    assert_eq!(rt; seat.byte(0x20, 1056), None);
    Ok(())
}

// Lets a frame come to the seat, which must send nothing.
fn ignored(
    rt: &(impl Abort + AllocGlobal),
    seat: &mut Seat<ButtonInterface>,
    body: [u8; 12],
) -> Result<(), Fail> {
    let mut outbox = Outbox::new(rt.alloc(), 9)?;
    seat.act(Event::Heard(Frame::from(body)), &mut outbox);
    assert_eq!(rt; outbox.frames().len(), 0);
    Ok(())
}

// Commands with a byte past the count, so that the count is one too small for them, and last a type request with a byte
// of data; no house lets such frames through.
#[test]
fn bytes_past_the_count(rt: HostRuntime) -> Result<(), Fail> {
    let heap = rt.alloc();
    let mut seat = interface();
    let lamps = [3, 0x20, 0, 4, 0xF4, 0x0F, 0, 0, 0, 0, 0, 0];
    act(heap, &mut seat, Event::Heard(Frame::from(lamps)))?;
    let lock = [3, 0x20, 0, 5, 0x12, 0x01, 1, 2, 3, 0, 0, 0];
    act(heap, &mut seat, Event::Heard(Frame::from(lock)))?;
    let bodies = [
        [3, 0x20, 0, 4, 0x12, 0x02, 1, 2, 3, 0, 0, 0],
        [3, 0x20, 0, 1, 0x13, 0x01, 0, 0, 0, 0, 0, 0],
        [3, 0x20, 0, 1, 0xFA, 0xFF, 0, 0, 0, 0, 0, 0],
        [3, 0x20, 0, 0, 0xD7, 0, 0, 0, 0, 0, 0, 0],
        [3, 0x00, 0, 0, 0xD7, 0, 0, 0, 0, 0, 0, 0],
        [3, 0x00, 0, 3, 0xD8, 1, 2, 3, 0, 0, 0, 0],
        [3, 0x20, 0, 3, 0xF4, 1, 2, 4, 0, 0, 0, 0],
        [3, 0x20, 0, 1, 0xF5, 0xFF, 0, 0, 0, 0, 0, 0],
        [3, 0x20, 0, 1, 0xF6, 0xFF, 0, 0, 0, 0, 0, 0],
        [3, 0x20, 0, 1, 0xF7, 0xFF, 0, 0, 0, 0, 0, 0],
        [3, 0x20, 0, 1, 0xF8, 0xFF, 0, 0, 0, 0, 0, 0],
        [3, 0x20, 0, 1, 0xF9, 0xFF, 0, 0, 0, 0, 0, 0],
        [3, 0x20, 0, 3, 0xFC, 0, 0x10, 1, 0, 0, 0, 0],
        [3, 0x20, 0, 6, 0xCA, 0, 0x10, 1, 2, 3, 4, 0],
        [3, 0x20, 0, 2, 0xFD, 0, 0x10, 0, 0, 0, 0, 0],
        [3, 0x20, 0, 2, 0xC9, 0, 0x10, 0, 0, 0, 0, 0],
        [3, 0x20, 1, 1, 0, 0, 0, 0, 0, 0, 0, 0],
    ];
    for body in bodies {
        ignored(&rt, &mut seat, body)?;
    }
    for place in 0x10..0x14 {
        assert_eq!(&rt; seat.byte(0x20, place), Some(0xFF));
    }
    let mut expected = [0; 32];
    expected[0] = 0x0F;
    expected[4] = 1;
    expected[5] = 2;
    expected[6] = 3;
    check_state(&rt, &seat, expected)
}
