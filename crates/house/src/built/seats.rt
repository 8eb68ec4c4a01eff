// How a station is looked at, and how it acts then.
ghost use Rattle.std.specs.Prelude.{◌≡◌, ◌≤◌, length};
ghost use Rattle.bus.specs.Outboxes.{Room, Sends};
ghost use Rattle.station.specs.Seats.{places, after_all, sent_all};
ghost use Rattle.house.specs.Faults.{faulted, OkUnless};

use super::Built;
use bus::{Outbox, Refusal};
use station::{Addresses, Event, Station};

impl<S: Station> Built<S> {
    // Not inlined: LLVM would split each move of a large station into many small ones, and take very long over it.
    #[inline(never)]
    pub(crate) fn new(station: S) -> Self
        ensures { result.station ≡ station }
    {
        let mut list = Addresses::new();
        station.list_addresses(&mut list);
        let seats = checked_seats(&list);
        Built { station, seats }
    }

    // Lets the station act on the event.
    pub(crate) fn act(&mut self, event: Event, out: &mut Outbox)
        requires { Room out.old (places (S.seats self.old.station)) }
        ensures after { S.seats self.new.station ≡ after_all event (S.seats self.old.station) }
        ensures sent { Sends out.old out.new (sent_all event (S.seats self.old.station)) }
        ensures few { length (sent_all event (S.seats self.old.station)) ≤ places (S.seats self.old.station) }
    {
        self.station.act(event, out);
    }
}

// How many seats are listed, or the builder's fault that the list shows.
fn checked_seats(list: &Addresses) -> Result<usize, Refusal>
    ensures { OkUnless result (faulted list.now) list.now.count }
{
    if list.outside {
        Err(Refusal::SeatAddress)
    } else if list.twice {
        Err(Refusal::AddressTwice)
    } else if list.count > 16 {
        Err(Refusal::TooManySeats)
    } else {
        Ok(list.count)
    }
}
