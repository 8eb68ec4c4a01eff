// The memory of a button interface, and which of its link records are in use.
ghost use Rattle.std.specs.Prelude.{◌≡◌};
ghost use Rattle.module.specs.Cells.{memory_cells};
ghost use Rattle.module.specs.Numbers.{row_numbers};
ghost use Rattle.interface.specs.Links.{links_in_use};

use module::{Memory, Rows};

// How many cells the memory has.
pub const CELLS: usize = 1024;

// How many link records there are.
pub const LINKS: usize = 51;

// Few records are in use mostly, so searches go through a list of them, which is made anew when cells are written.
#[derive(Drop)]
pub(crate) struct Records {
    pub(crate) memory: Memory<CELLS>,
    pub(crate) used: Rows<LINKS>,
    ghost listed: { row_numbers used ≡ links_in_use (memory_cells memory) },
}
