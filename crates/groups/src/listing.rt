// How a group is listed.
ghost use Rattle.groups.specs.Marks.{ListsUsable};

use crate::group::Group;

impl Group {
    // Lists the members from 1 to 254, which are the addresses that a module can have, at the front of a buffer, and
    // answers how many there are. A buffer with fewer than 254 places is refused.
    pub fn list(&self, buffer: &mut [u8]) -> Option<usize>
        ensures { ListsUsable self.now.marks result buffer.old buffer.new }
    {
        if buffer.len() < 254 {
            return None;
        }
        let mut count = 0;
        for address in 1..=254 {
            if self.marks[usize::from(address)] {
                buffer[count] = address;
                count += 1;
            }
        }
        Some(count)
    }
}
