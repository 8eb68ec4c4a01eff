// Which rows of a table in a memory bear the address of a seat. A search need look at no others.
ghost use Rattle.std.specs.Prelude.{◌≡◌, ◌≤◌, min, length, take};
ghost use Rattle.module.specs.Cells.{memory_cells};
ghost use Rattle.module.specs.Searches.{seatable, rows_in_use};

use crate::memory::Memory;

// The numbers of such rows among the first N, in rising order; a number is a byte, so there are 255 at most.
#[derive(Clone, Copy)]
pub struct Rows<const N: usize> {
    numbers: [u8; N],
    count: usize,
    ghost full: { length numbers ≡ N },
    ghost within: { count ≤ N },
}

// Whether a seat can stand at an address.
pub fn is_seatable(address: u8) -> bool
    ensures { result ≡ seatable address }
{
    address > 0 && address < 255
}

impl<const N: usize> Rows<N> {
    // Of a table that begins at a cell, with so many cells a row; a row begins with its address.
    pub fn in_use<const C: usize>(memory: &Memory<C>, start: u16, step: u8) -> Self
        ensures { take result.count result.numbers ≡ rows_in_use (memory_cells memory.now) start step (min N 255) }
    {
        let mut numbers = [0; N];
        let mut count = 0;
        for k in 0..u8::try_from(N).unwrap_or(255) {
            let cell = usize::from(start) + usize::from(step) * usize::from(k);
            if is_seatable(memory.read(cell)) {
                numbers[count] = k;
                count += 1;
            }
        }
        Rows { numbers, count }
    }

    // The numbers.
    pub fn numbers(&self) -> &[u8]
        ensures { result.now ≡ take self.now.count self.now.numbers }
    {
        &self.numbers[..self.count]
    }
}
