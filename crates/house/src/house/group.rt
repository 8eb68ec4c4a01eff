// The group of an address.
ghost use Rattle.std.specs.Prelude.{◌≡◌, length};
ghost use Rattle.bus.specs.Refusals.{refusal_number};
ghost use Rattle.house.specs.Faults.{first_number, OkUnless};
ghost use Rattle.house.specs.Groups.{group_checks, group_refusal, AnswersGroup, GroupNumbersRise, SmallestGroupRefusal};
ghost use Rattle.house.specs.Houses.{station_of};

use super::House;
use bus::Refusal;
use groups::Group;
use station::Station;

impl<S: Station> House<S> {
    // Lists the addresses that links lead to from an address, whichever way they point, at the front of a buffer with 254
    // places or more, and answers how many there are.
    pub fn group(&self, address: u8, buffer: &mut [u8]) -> Result<usize, Refusal>
        ensures number { refusal_number result ≡ first_number (group_checks (S.seats (station_of self.now)) address (length buffer.old)) }
        ensures answer { AnswersGroup (S.seats (station_of self.now)) address result buffer.old buffer.new }
    {
        self.check_group(address, buffer.len())?;
        let group = Group::new(&self.built.station, address);
        // the places were counted before, so it is listed
        group.list(buffer).ok_or(Refusal::ShortBuffer)
    }

    // Whether the group of an address may be listed in that many places.
    fn check_group(&self, address: u8, places: usize) -> Result<(), Refusal>
        ensures { OkUnless result (group_refusal (S.seats (station_of self.now)) address places) tt }
    {
        self.seats()?;
        if places < 254 {
            return Err(Refusal::ShortBuffer);
        }
        if self.built.station.standing(address) == 0 {
            return Err(Refusal::NoSuchSeat);
        }
        Ok(())
    }
}

// Here too the numbers are looked at from the smallest up, so the smallest that applies is answered.
pub fn smallest_group_refusal_first() -> u8
    ensures rises { GroupNumbersRise }
    ensures smallest { SmallestGroupRefusal }
{
    0
}
