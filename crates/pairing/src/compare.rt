// Whether two houses are alike in a group of addresses.
ghost use Rattle.std.specs.Prelude.{◌≡◌, ◌↔◌, IsTrue};
ghost use Rattle.station.specs.Seats.{first_byte};
ghost use Rattle.house.specs.Houses.{station_of};
ghost use Rattle.runs.specs.Isolation.{members};
ghost use Rattle.pairing.specs.Groups.{within, SameRecord, SameRecords};

use bus::Frame;
use house::House;
use station::Station;

// The byte at a place of the record of the first seat at an address, if there is one.
#[tactic(auto, using(crate::proofs::Alike::told_byte))]
fn byte_at<S: Station>(house: &House<S>, address: u8, place: usize) -> Option<u8>
    ensures { result ≡ first_byte address place (S.seats (station_of house.now)) }
{
    house.record(address, place)
}

// Whether the first seats at an address have the same record, byte by byte, or there is none in either house.
#[tactic(auto, using(crate::proofs::Alike::ended_same))]
pub fn same_record<S: Station, T: Station>(here: &House<S>, there: &House<T>, address: u8) -> bool
    ensures { IsTrue result ↔ SameRecord (S.seats (station_of here.now)) (T.seats (station_of there.now)) address }
{
    for place in 0..=usize::MAX {
        let byte = byte_at(here, address, place);
        if byte != byte_at(there, address, place) {
            return false;
        }
        if byte.is_none() {
            return true;
        }
    }
    true
}

// Whether that is so at every address.
fn same_at<S: Station, T: Station>(here: &House<S>, there: &House<T>, addresses: &[u8]) -> bool
    ensures { IsTrue result ↔ SameRecords (S.seats (station_of here.now)) (T.seats (station_of there.now)) addresses.now }
{
    addresses
        .iter()
        .all(|address| same_record(here, there, *address))
}

// Whether that is so at every address of a group. It is where the seats of the group are the same, as the law of
// isolation promises.
#[tactic(auto, using(crate::proofs::Grouped::same_seats))]
pub fn same_records<S: Station, T: Station>(here: &House<S>, there: &House<T>, group: &[u8]) -> bool
    ensures bytes { IsTrue result ↔ SameRecords (S.seats (station_of here.now)) (T.seats (station_of there.now)) group.now }
    ensures seats { members (within group.now) (S.seats (station_of here.now)) ≡ members (within group.now) (T.seats (station_of there.now)) → IsTrue result }
{
    same_at(here, there, group)
}

// Whether the frames are the same, in the same order.
pub fn same_frames(here: &[Frame], there: &[Frame]) -> bool
    ensures { IsTrue result ↔ (here.now ≡ there.now) }
{
    here == there
}
