// The group of an address.
ghost use Rattle.groups.specs.Links.{OwnGroup, ClosedGroup, SmallestGroup};

// Which addresses belong.
#[derive(Drop)]
pub struct Group {
    pub(crate) marks: [bool; 256],
}

// An address is in its group, and no link leads out of a group or into it; of the sets of which this holds, the group is
// the smallest.
pub fn group_is_smallest() -> u8
    ensures own { OwnGroup }
    ensures closed { ClosedGroup }
    ensures smallest { SmallestGroup }
{
    0
}
