// How a group is found.
ghost use Rattle.std.specs.Prelude.{◌≡◌, ℕ, ◌<◌, true, false, MatchOption};
ghost use Rattle.groups.specs.Marks.{first_link, marked, touches, Follows, MarksGroup};

use crate::group::Group;
use station::Station;

impl Group {
    // The group of an address among the seats of a station, where of two seats at one address the first counts. Each
    // member's links are followed once.
    pub fn new<S: Station>(station: &S, address: u8) -> Self
        ensures { MarksGroup (first_link (S.Station.seats station.now)) address result.marks }
    {
        let mut marks = [false; 256];
        marks[usize::from(address)] = true;
        let mut followed = [false; 256];
        while let Some(member) = next(&marks, &followed) {
            follow(station, member, &mut marks);
            followed[usize::from(member)] = true;
        }
        Group { marks }
    }
}

// A marked address whose links are still to be followed.
fn next(marks: &[bool; 256], followed: &[bool; 256]) -> Option<u8>
    ensures { MatchOption result ((b : ℕ) → b < 256 → marked marks.now b ≡ true → marked followed.now b ≡ true) (λ b. (marked marks.now b ≡ true) × (marked followed.now b ≡ false)) }
{
    for address in 0..=255 {
        if marks[usize::from(address)] && !followed[usize::from(address)] {
            return Some(address);
        }
    }
    None
}

// Marks what an address links, and what links it.
fn follow<S: Station>(station: &S, address: u8, marks: &mut [bool; 256])
    ensures { Follows (first_link (S.Station.seats station.now)) address marks.old marks.new }
{
    for other in 0..=255 {
        marks[usize::from(other)] |= touches(station, address, other);
    }
}

// Whether one of the two addresses links the other.
fn touches<S: Station>(station: &S, address: u8, other: u8) -> bool
    ensures { result ≡ touches (first_link (S.Station.seats station.now)) address other }
{
    station.links(address, other) || station.links(other, address)
}
