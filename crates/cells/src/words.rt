// The words memory: an array of 32-bit numbers.
ghost use Rattle.std.specs.Prelude.{◌≡◌, []};

use crate::memory::Memory;
use crate::refusal::Refusal;

#[derive(Drop)]
pub struct Words<'a> {
    cells: &'a mut [u32],
}

impl<'a> Words<'a> {
    pub fn new(cells: &'a mut [u32]) -> Words<'a>
        ensures cells { result.cells.now ≡ cells.old }
        ensures lender { result.cells.ghost_name ≡ cells.entry.ghost_name }
    {
        Words { cells }
    }
}

impl<'a> Memory for Words<'a> {
    type Cell = u32;

    ghost contents = { λ w. w.cells.now };

    ghost rest = { λ _. [] };

    ghost lender = { λ w. w.cells.ghost_name };

    fn size(&self) -> usize {
        self.cells.len()
    }

    fn read(&self, address: usize) -> Result<u32, Refusal> {
        self.cells.get(address).copied().ok_or(Refusal::Address)
    }

    fn write(&mut self, address: usize, cell: u32) -> Result<(), Refusal> {
        if address >= self.cells.len() {
            return Err(Refusal::Address);
        }
        self.cells[address] = cell;
        Ok(())
    }
}
