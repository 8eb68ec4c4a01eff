// The memory of a relay, and which of its pairs are in use.
ghost use Rattle.std.specs.Prelude.{◌≡◌};
ghost use Rattle.module.specs.Cells.{memory_cells};
ghost use Rattle.module.specs.Numbers.{row_numbers};
ghost use Rattle.relay.specs.Channels.{each, numbered};
ghost use Rattle.relay.specs.Tables.{pairs_in_use};

use crate::per_channel::PerChannel;
use module::{Memory, Rows};

// How many cells the memory has.
pub const CELLS: usize = 1024;

// How many pairs a channel has.
pub const PAIRS: usize = 120;

// Few pairs are in use mostly, so searches go through a list of them, which is made anew when cells are written.
#[derive(Drop)]
pub(crate) struct Pairs {
    pub(crate) memory: Memory<CELLS>,
    pub(crate) used: PerChannel<Rows<PAIRS>>,
    ghost listed: { each row_numbers used ≡ numbered (pairs_in_use (memory_cells memory)) },
}
