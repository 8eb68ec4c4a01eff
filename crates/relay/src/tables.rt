// The pairs in the memory of a relay.
ghost use Rattle.std.specs.Prelude.{◌≡◌, ◌^◌, ◌<◌, true, replicate};
ghost use Rattle.bus.specs.Outboxes.{Room, Sends};
ghost use Rattle.station.specs.Rules.{stored};
ghost use Rattle.module.specs.Cells.{memory_cells};
ghost use Rattle.module.specs.Memories.{memory_sent};
ghost use Rattle.module.specs.Numbers.{row_numbers};
ghost use Rattle.module.specs.Searches.{seatable};
ghost use Rattle.relay.specs.Channels.{each, numbered};
ghost use Rattle.relay.specs.Tables.{pair_cell, matches, in_common, first_pair, named_in, named, pairs_in_use, action_of};

use crate::action::Action;
use crate::pairs::{CELLS, PAIRS, Pairs};
use crate::per_channel::PerChannel;
use crate::query::Query;
use crate::timers::Timers;
use bus::{Frame, Outbox};
use module::{Memory, Rows, is_seatable, is_write};

// From so many pairs in use on, a channel's list of them is no quicker to search than all of its pairs.
const MANY: usize = 80;

// Where pair p of channel c begins.
pub(crate) fn pair_cell(c: u8, p: u8) -> usize
    ensures value { result ≡ pair_cell c p }
    ensures bound { result < 2 ^ 17 }
{
    256 * usize::from(c) + 2 * usize::from(p)
}

// Whether a pair's buttons have one in common with those asked for, if any are.
fn has_common(asked: Option<u8>, bits: u8) -> bool
    ensures { result ≡ in_common asked bits }
{
    asked.is_none_or(|asked| bits & asked != 0)
}

// The pairs in use of channel c.
fn in_use(memory: &Memory<CELLS>, c: u8) -> Rows<PAIRS>
    ensures { row_numbers result ≡ pairs_in_use (memory_cells memory.now) c }
{
    Rows::in_use(memory, 256 * u16::from(c), 2)
}

// The pairs in use of all channels.
fn all_in_use(memory: &Memory<CELLS>) -> PerChannel<Rows<PAIRS>>
    ensures { each row_numbers result ≡ numbered (pairs_in_use (memory_cells memory.now)) }
{
    PerChannel::from_fn(|c| in_use(memory, c))
}

// Makes the lists anew. Not inlined: the place of the new ones would be cleared on each command, also where none are made.
#[inline(never)]
fn remake(memory: &Memory<CELLS>, used: &mut PerChannel<Rows<PAIRS>>)
    ensures { each row_numbers used.new ≡ numbered (pairs_in_use (memory_cells memory.now)) }
{
    *used = all_in_use(memory);
}

impl Pairs {
    // Fresh cells: no pair is in use.
    pub(crate) fn new() -> Self
        ensures { memory_cells result.memory ≡ replicate 1024 255 }
    {
        let memory = Memory::new();
        let used = all_in_use(&memory);
        Pairs { memory, used }
    }

    // Obeys a memory command; any other frame does nothing here.
    #[tactic(auto, using(module::proofs::Unwritten::stored_unwritten))]
    pub(crate) fn obey(&mut self, own: u8, frame: &Frame, out: &mut Outbox)
        requires { Room out.old 1 }
        ensures after { memory_cells self.new.memory ≡ stored (memory_cells self.old.memory) frame.now }
        ensures sent { Sends out.old out.new (memory_sent own (memory_cells self.old.memory) frame.now) }
    {
        self.memory.obey(own, frame, out);
        if is_write(frame) {
            remake(&self.memory, &mut self.used);
        }
    }

    // Whether pair p of channel c fits a query; the mode table is left out.
    fn matches(&self, c: u8, query: Query, p: u8) -> bool
        ensures { result ≡ matches (memory_cells self.now.memory) c query p }
    {
        let cell = pair_cell(c, p);
        self.memory.read(cell) == query.address
            && p / 15 != 3
            && has_common(query.buttons, self.memory.read(cell + 1))
    }

    // The first pair of channel c that fits a query, of all pairs. Not inlined, since mostly those in use will do.
    #[inline(never)]
    fn first_of_all(&self, c: u8, query: Query) -> Option<u8>
        ensures { result ≡ first_pair (memory_cells self.now.memory) c query }
    {
        (0..120).find(|p| self.matches(c, query, *p))
    }

    // The same of those in use, where the address is that of a seat.
    fn first_in_use(&self, c: u8, used: &[u8], query: Query) -> Option<u8>
        requires used { used.now ≡ pairs_in_use (memory_cells self.now.memory) c }
        requires seat { seatable query.address ≡ true }
        ensures { result ≡ first_pair (memory_cells self.now.memory) c query }
    {
        used.iter().copied().find(|p| self.matches(c, query, *p))
    }

    // The first pair of channel c that fits a query. Where most pairs are in use, going through all is quicker.
    fn first_pair(&self, c: u8, used: &Rows<PAIRS>, query: Query) -> Option<u8>
        requires { row_numbers used.now ≡ pairs_in_use (memory_cells self.now.memory) c }
        ensures { result ≡ first_pair (memory_cells self.now.memory) c query }
    {
        let used = used.numbers();
        if is_seatable(query.address) && used.len() < MANY {
            self.first_in_use(c, used, query)
        } else {
            self.first_of_all(c, query)
        }
    }

    // The first pair of each channel that fits a query.
    pub(crate) fn first_pairs(&self, query: Query) -> PerChannel<Option<u8>>
        ensures { result ≡ numbered (λ c. first_pair (memory_cells self.now.memory) c query) }
    {
        PerChannel {
            one: self.first_pair(0, &self.used.one, query),
            two: self.first_pair(1, &self.used.two, query),
            three: self.first_pair(2, &self.used.three, query),
            four: self.first_pair(3, &self.used.four, query),
        }
    }

    // Whether a pair of channel c bears the address.
    fn names_in(&self, c: u8, used: &Rows<PAIRS>, address: u8) -> bool
        requires { row_numbers used.now ≡ pairs_in_use (memory_cells self.now.memory) c }
        ensures { result ≡ named_in (memory_cells self.now.memory) c address }
    {
        let query = Query {
            address,
            buttons: None,
        };
        self.first_pair(c, used, query).is_some()
    }

    // Whether some pair bears the address.
    pub(crate) fn names(&self, address: u8) -> bool
        ensures { result ≡ named (memory_cells self.now.memory) address }
    {
        self.names_in(0, &self.used.one, address)
            || self.names_in(1, &self.used.two, address)
            || self.names_in(2, &self.used.three, address)
            || self.names_in(3, &self.used.four, address)
    }
}

impl Timers {
    // What pair p of the timers' channel asks for.
    pub(crate) fn action(self, p: u8) -> Action
        ensures { result ≡ action_of self p }
    {
        match p / 15 {
            0 => Action::Clear,
            1 => Action::Set,
            2 => Action::Toggle,
            4 => Action::ToggleTimer(self.first),
            5 => Action::ToggleTimer(self.second),
            6 => Action::Start(self.first),
            _ => Action::Start(self.second),
        }
    }
}
